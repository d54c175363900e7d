// The list of an environment, lengthened level by level as far as someone asked, and given page by page.
// The main definition is `IsListed`: what is found is a front of the list made of whole levels. It
// stands on `terms`, whose trait `Levels` gives the levels, and on `java_print` for their texts.
#![tactic(auto)]

mod growth;
mod item;
mod level_order;
mod listing;
mod page;
mod prefix_codes;
mod same;

pub use item::Item;
pub use listing::Listing;
pub use page::Page;

#[cfg(test)]
mod tests;
