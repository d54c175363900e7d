// The parameters and results of the language server's methods, between JSON values and Rust's types. The
// main definitions are one function for each method, as `completion_of` and `command_of`, from the JSON
// value of the parameters to the form or to the fault, in the order of causes; `list_answer` says what a
// page of a list is as JSON, `rows_answer` and `floors_answer` what certificates are. It stands on `json_rpc`, `checker`,
// `decl_index`, `type_names`, `terms`, `lists` and the kit's `serde_json`, `url`, `percent_encoding` and `itoa`.
#![tactic(auto)]

mod certificates;
mod changes;
mod commands;
mod documents;
mod forms;
mod keys;
mod options;
mod params;
mod paths;
mod publishing;
mod results;
mod weights;

pub use certificates::{make_floors, make_rows};
pub use changes::read_did_change;
pub use commands::read_command;
pub use documents::{read_completion, read_did_close, read_did_open};
pub use forms::{
    ChangeForm, Command, Completion, DidChange, DidClose, DidOpen, Initialize, ItemForm, ParamFault,
};
pub use options::read_initialize;
pub use results::{make_capabilities, make_list, make_version};
