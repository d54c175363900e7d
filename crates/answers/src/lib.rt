// What a client is answered, as definitions and their laws, before any code of a session. The main definitions
// are `answer_to`, the answer to one message as a function of the session, the message and what it met outside,
// and `Holds`, what is true of the answers of a whole run. The law `Headline` says: whatever a client asks and
// meets lawfully, `Holds`. It stands on the list of terms, on versions, on holes, and on the forms of messages.
#![tactic(auto)]

mod laws;
mod types;

pub use laws::answer_laws;
pub use types::{Cursor, DocumentState, Hole, NamedFiles, OpenDocument, Page, Phase};
