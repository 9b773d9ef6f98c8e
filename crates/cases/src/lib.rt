// The worked cases: of the requirements, of files damaged at every field, and of listings, with their answers, proved by computing. No code.
#![tactic(auto)]
