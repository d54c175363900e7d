ghost use Rattle.std.specs.Prelude.{◌≡◌};
ghost use Rattle.json_rpc.specs.declared.message.RpcRefusal.TheVariants.{OutOfMemory};

use lists::{Copies, Text};
use serde_json::Value;
use std::alloc::{AllocError, Global};

/// The id of a request (JSON-RPC 2.0, section 4): a string or a whole number.
#[derive(Debug, Drop)]
pub enum Id {
    Number(i64),
    Text(Text),
}

impl Copies for Id {
    fn copy(&self, alloc: Global) -> Result<Id, AllocError> {
        match self {
            Id::Number(number) => Ok(Id::Number(*number)),
            Id::Text(text) => Ok(Id::Text(text.copy(alloc)?)),
        }
    }
}

/// A message that a client sent. Parameters that are missing are null.
#[derive(Drop)]
pub enum Message {
    /// It wants an answer with its id.
    Request { id: Id, method: Text, params: Value },
    /// A notification, which is never answered.
    Notice { method: Text, params: Value },
    /// An answer to a request of ours; this server sends none, so it is dropped.
    Response,
}

/// The answer to a body that is no valid message: the code -32700 or -32600, and the id that it shows.
#[derive(Debug, Drop)]
pub struct RpcFault {
    pub code: i32,
    pub id: Option<Id>,
}

/// Why a body is no message.
#[derive(Debug, Drop)]
pub enum RpcRefusal {
    Fault(RpcFault),
    OutOfMemory,
}

impl From<AllocError> for RpcRefusal {
    ghost from_gives = { λ _ e. e ≡ OutOfMemory };

    fn from(_e: AllocError) -> RpcRefusal {
        RpcRefusal::OutOfMemory
    }
}

/// A fault of what was asked, or want of memory.
#[derive(Clone, Copy, Debug, Drop)]
pub enum Refused<F> {
    Fault(F),
    OutOfMemory,
}
