// Known figures, run through the layers of the box: one module of tests for each layer.
#![tactic(auto)]

#[cfg(test)]
mod answers;
#[cfg(test)]
mod balances;
#[cfg(test)]
mod call_tables;
#[cfg(test)]
mod factors;
#[cfg(test)]
mod grids;
#[cfg(test)]
mod named_books;
#[cfg(test)]
mod piles;
#[cfg(test)]
mod profiles;
#[cfg(test)]
mod refusals;
#[cfg(test)]
mod rolls;
#[cfg(test)]
mod slip_books;
#[cfg(test)]
mod splits;
