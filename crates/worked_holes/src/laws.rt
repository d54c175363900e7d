ghost use Rattle.std.specs.Prelude.{[]};
ghost use Rattle.scopes.specs.Rows.{overloads, of_overloads, overriding, of_overriding, two_promises, of_two_promises, readers, of_readers, hidden_field, of_hidden_field, no_result, of_no_result};
ghost use Rattle.worked_holes.specs.Worked.{HasOnly, of_two_methods, of_an_override, of_two_interfaces, of_streams, of_a_sink};

/// Six holes have the environments that were worked out by hand, and no others: overloads, an override, one method of two
/// interfaces, readers over streams, a hidden field, and a lambda without result. It does nothing.
pub fn worked_holes()
    ensures overloads { HasOnly of_two_methods overloads.unit overloads.site 45 of_overloads }
    ensures overriding { HasOnly of_an_override overriding.unit overriding.site 45 of_overriding }
    ensures two_promises { HasOnly of_two_interfaces two_promises.unit two_promises.site 45 of_two_promises }
    ensures readers { HasOnly of_streams readers.unit readers.site 4000 of_readers }
    ensures hidden_field { HasOnly [] hidden_field.unit hidden_field.site 30 of_hidden_field }
    ensures no_result { HasOnly of_a_sink no_result.unit no_result.site 50 of_no_result }
{}
