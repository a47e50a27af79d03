#![tactic(auto)]
// The encodings lists of section 3.3 as code, with the fields and the mode numbers that they name.
pub mod fields;
pub mod modes;
pub mod rows;
