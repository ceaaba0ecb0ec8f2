// The exported calls. Each decides nothing: it calls the function below it, returns the number of a refusal or 0, and
// lays the values into `out`.
#![tactic(auto, unfolding(answers::specs::Answer::number, answers::specs::Answer::out_of))]

mod by_id;
mod compaction;
mod files;
mod leaves;
mod lists;
mod payloads;
mod values;
mod writing;
