// What a document says, and when it is legal: definitions and laws alone, whatever form it is spelled in.
#![tactic(auto)]
