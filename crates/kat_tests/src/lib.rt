//! Tests of what no row file can say, through public calls: joins of values by themselves, entries of a table, states near their
//! limits, designs with values that no file has, facts that are built, and the file of the cart.
#![tactic(auto)]

#[cfg(test)]
mod carts;
#[cfg(test)]
mod entries;
#[cfg(test)]
mod facts;
#[cfg(test)]
mod lattices;
#[cfg(test)]
mod states;
#[cfg(test)]
mod unwritten;
