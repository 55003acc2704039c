// Walk: rules of the program logic for functions whose code is walked by hand, as those that borrow a struct or a slice of structs.
//
// Place in the picture: below everything, with no code and no definition that a contract names. No crate cites it now: the prover makes the
// proofs for which it was written, of runs of range records and of the head of a log behind a `&mut`. It stays proved, for code that the
// prover does not cover; a walk says only what is its own. The rules are over any parameters, any locals and any element. In specs/:
//
//     Site        the tables over which code is read, and how a theorem of the code becomes the function's
//     Locals      a function's locals as one entry of the context; entering, returning, and `while`
//     Values      types by value
//     Params      a function's parameters, what is had of each at exit, and the way from a walk to the contract
//     Calling     calls that take values and what the context owns
//     Slices      a run of structs: an element read or written where it stands; runs opened and closed
//     Lending     a run lent again for a call
//     PassedOn    functions that pass all their parameters on for good
//     LastParam   a `&mut R` behind other parameters, and an R by value in its place
//     Walk        what a walk names, by one line
#![tactic(auto)]
