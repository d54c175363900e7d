use json_rpc::Id;

/// What follows a message. `Reply` has the body of its reply; `NoMemory` asks for the reply "no memory" to this
/// request, which takes none; `Silent` has no reply; `Exit` ends the session, and tells whether `shutdown` came
/// before.
#[derive(Debug, Drop)]
pub enum Outcome {
    Reply(Vec<u8>),
    NoMemory(Id),
    Silent,
    Exit(bool),
}
