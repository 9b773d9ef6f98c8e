// The listing of a file, and the file that is composed from a listing: definitions in specs/, laws in proofs/. No code: `lister`,
// `line_reader` and `composer` have that.
#![tactic(auto)]
