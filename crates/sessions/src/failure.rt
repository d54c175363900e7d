ghost use Rattle.std.specs.Prelude.{◌≡◌, Some, IfOk, option_map};
ghost use Rattle.serde_json.specs.View.{view};
ghost use Rattle.answers.specs.Failures.{code_of, message_of, data_of, change_data};
ghost use Rattle.sessions.specs.Failing.{failure_of, cycle_data};

use decl_index::ChangeFault;
use lists::Text;
use serde_json::{Value, json};
use std::alloc::{AllocError, Global};

/// What a request is refused for. The causes of `InvalidParams` are 1 to 10, 12, 13 and 20 to 22; its index is the number in
/// the list that it speaks of, 0 where none is meant. `NoClass` is of a file that is no class file: its number, and the
/// number and the place of the fault of its bytes. `VersionWithdrawn` has the number of the change that withdrew the
/// version, and the version. `ReadFault` is of a file that couldn't be read.
#[derive(Debug, Drop)]
pub enum Failure {
    ParseError,
    InvalidRequest,
    UnknownMethod,
    NotInitialized,
    InvalidParams { cause: u32, index: u32 },
    NoClass { index: u32, class: u32, place: u32 },
    ChangeRefused(ChangeFault),
    VersionWithdrawn { number: u32, version: u32 },
    ReadFault { index: u32 },
}

/// What is told of a cycle of classes: its cause, and the least name of it.
fn cycle_data(alloc: Global, cause: u32, name: &Text) -> Result<Option<Value>, AllocError>
    ensures data { IfOk result (λ d. option_map view d ≡ Some (cycle_data cause name.now)) }
{
    let name = Value::try_from_str(alloc, name.as_str())?;
    Ok(Some(json!(in alloc; {"cause": cause, "index": 0u32, "name": name})?))
}

/// What is told of a change that was refused: its cause, with the name of a class or a number.
fn change_data(alloc: Global, fault: &ChangeFault) -> Result<Option<Value>, AllocError>
    ensures data { IfOk result (λ d. option_map view d ≡ change_data fault.now) }
{
    match fault {
        ChangeFault::Cyclic(name) => cycle_data(alloc, 14, name),
        ChangeFault::Full(parts) => {
            Ok(Some(json!(in alloc; {"cause": 15u32, "index": 0u32, "number": *parts})?))
        }
        ChangeFault::TooHigh(through) => {
            Ok(Some(json!(in alloc; {"cause": 16u32, "index": 0u32, "number": *through})?))
        }
        ChangeFault::JournalFull => Ok(Some(json!(in alloc; {"cause": 17u32, "index": 0u32})?)),
        ChangeFault::NestCycle(name) => cycle_data(alloc, 18, name),
        ChangeFault::OutOfMemory => Ok(None),
    }
}

impl Failure {
    /// Its code (JSON-RPC 2.0, section 5.1; LSP 3.17, "ErrorCodes").
    pub fn code(&self) -> i32
        ensures code { result ≡ code_of (failure_of self.now) }
    {
        match self {
            Failure::ParseError => -32_700,
            Failure::InvalidRequest => -32_600,
            Failure::UnknownMethod => -32_601,
            Failure::NotInitialized => -32_002,
            Failure::InvalidParams { .. } => -32_602,
            Failure::NoClass { .. } => -32_602,
            Failure::ChangeRefused(_) => -32_602,
            Failure::VersionWithdrawn { .. } => -32_801,
            Failure::ReadFault { .. } => -32_803,
        }
    }

    /// Its text.
    pub fn message(&self) -> &'static str
        ensures text { result.now ≡ message_of (failure_of self.now) }
    {
        match self {
            Failure::ParseError => "parse error",
            Failure::InvalidRequest => "invalid request",
            Failure::UnknownMethod => "method not found",
            Failure::NotInitialized => "not initialized",
            Failure::InvalidParams { .. } => "invalid params",
            Failure::NoClass { .. } => "invalid params",
            Failure::ChangeRefused(_) => "invalid params",
            Failure::VersionWithdrawn { .. } => "version withdrawn",
            Failure::ReadFault { .. } => "read fault",
        }
    }

    /// Its data, where it has any.
    pub fn data(&self, alloc: Global) -> Result<Option<Value>, AllocError>
        ensures data { IfOk result (λ d. option_map view d ≡ data_of (failure_of self.now)) }
    {
        match self {
            Failure::InvalidParams { cause, index } => {
                Ok(Some(json!(in alloc; {"cause": *cause, "index": *index})?))
            }
            Failure::NoClass {
                index,
                class,
                place,
            } => Ok(Some(
                json!(in alloc; {"at": *place, "cause": 11u32, "class": *class, "index": *index})?,
            )),
            Failure::ChangeRefused(fault) => change_data(alloc, fault),
            Failure::VersionWithdrawn { number, version } => {
                Ok(Some(json!(in alloc; {"number": *number, "version": *version})?))
            }
            Failure::ReadFault { index } => Ok(Some(json!(in alloc; {"index": *index})?)),
            _ => Ok(None),
        }
    }
}
