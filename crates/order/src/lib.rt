// Layer book. The order of entry, as theorems on the book: it changes no group, and no further call separates two of one group. It has no
// code of its own.
#![tactic(auto)]
