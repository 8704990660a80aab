// The mathematics under the rules, with no code: bits of a number, ranges, sums and parities over lists, ascending lists, and recursion along a
// measure. The definitions are in specs/, their laws in proofs/, one subject a file. It rests on the toolchain's logic alone.
#![tactic(auto)]
