//! Tests of what reads Verilog text: what texts are answered, each by hand from the rules of the language.
#![tactic(auto)]

#[cfg(test)]
mod vlex;
#[cfg(test)]
mod vparse;
#[cfg(test)]
mod vsyntax;
