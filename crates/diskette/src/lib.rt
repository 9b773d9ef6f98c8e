// The rules of the diskette form: the crate holds definitions and theorems only, and no code.
#![tactic(auto)]
