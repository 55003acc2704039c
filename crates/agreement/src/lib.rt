// Agreement: the ranged model and the grid model are one, and what follows from it.
//
// Crate `model` says what each call means, on ranges, as the Rust has it. This crate says it a second time, on a grid of one state a
// subresource, by the words of the scope document (01, "Sheet rules"), and proves over the definitions alone, with no code:
//
//   - demand 3: after each call of every list, refused and conflicting ones included, on however many sets, newly opened or any that are
//     well formed, the two share the answer, every owned texture's extent, flag and states, and each subresource's transition; also texture
//     by texture, and call by call;
//   - each call keeps its sets well formed, and a log with a free entry for every subresource of the textures that the tracker owns never
//     refuses one;
//   - no strict assertion of the Rust fires;
//   - for single merges, the yes or no on uses is the WebGPU specification's rule, also in its own usages where the states are their bits.
//
// In the picture of docs/ARCHITECTURE.md it joins the ranged model with the grid and with the WebGPU rule; the crates of code are proved
// equal to the ranged model, and carry these claims over to it.
//
// Reading order: in specs/ the definitions, Grid, Shared, WellFormedSets, LogBound, Layers, Asserts and WebGpu, and what it is for a set to
// fit, with its test (Fits, Decides); in proofs/ first Claims, every statement with the name of its proof. The rest of proofs/, from the
// ground up: walks and grids (WalkLaws, GridLaws); the ranges of one mip (PaintLaws, FilterLaws); one texture (RulesAgree to BarrierLaws);
// sets and calls, for any two representations, and demand 3 (OpeningLaws to Agree); well-formed sets (WellStates to OwnRefusals); the log
// (LogRoom, EachCall); assertions (AssertLaws, AssertCalls); WebGPU (FitLaws to UsagesJudged). Laws of tests, lists, checks and ranges are
// crate `model`'s.
//
// must-fail/ holds wrong rules, one edit each, that the proofs refuse.
#![tactic(auto)]
