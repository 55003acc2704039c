// Call merge: the calls that merge into a scope, `TextureUsageScope::merge_single` and `merge_usage_scope`.
//
// Place in the picture: public calls, over the test (`set_wellformed`), the checks (`set_checks`) and the functions on one texture
// (`texture_merge`). Nothing is required of the caller: any argument and any numbers in the lent storage get an answer. First every set
// that is handed in is tested (4) and every check of 01's table is made, on unchanged storage; then the change, which stops only at a
// conflict.
//
//     single   one use of one texture
//     scope    every texture of another scope
//     slot     one texture of the scope, `insert_or_merge`: it is owned and inserted, or merged
//
// What holds: the answer and the view of the scope are the model's (model/specs/Calls, through specs/Contract), all that is lent
// stays but what is of the textures that the call names, and a refusal leaves every number as it was. A given set is only read.
#![tactic(auto)]

pub mod scope;
pub mod single;
pub mod slot;

pub use scope::merge_usage_scope;
pub use single::merge_single;
