// Examples and edges of the calls, over fields of every kind.
#![tactic(auto)]

#[cfg(test)]
mod analysers;
#[cfg(test)]
mod fields;
#[cfg(test)]
mod marks;
#[cfg(test)]
mod registers;
#[cfg(test)]
mod sheets;
