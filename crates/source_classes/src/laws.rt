ghost use Rattle.source_classes.specs.Order.{OrderPlaysNoPart};

/// Where the classes of some texts all have different names, the order of the texts plays no part: under each
/// name the same class is published.
pub fn order_of_texts()
    ensures law { OrderPlaysNoPart }
{}
