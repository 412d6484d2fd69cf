// Tables of whole sheets with their answers.
#![tactic(auto)]

#[cfg(test)]
mod sheets;
