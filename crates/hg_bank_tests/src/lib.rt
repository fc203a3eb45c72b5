//! Banks that are taken apart, audited core by core and made again; and cores that are lent.
#![tactic(auto)]

#[cfg(test)]
mod tests;
