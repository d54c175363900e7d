ghost use Rattle.std.specs.Prelude.{◌≡◌, Some, IfOk};
ghost use Rattle.std.specs.Prelude.{Ok};
ghost use Rattle.serde_json.specs.View.{view};
ghost use Rattle.answers.specs.declared.types.Phase.TheVariants.{Fresh, Running};
ghost use Rattle.lsp_forms.specs.Forms.{completion_of};
ghost use Rattle.lsp_forms.specs.Commands.{command_of};
ghost use Rattle.answers.specs.Sessions.{document_of};
ghost use Rattle.answers.specs.Messages.{request_by, fresh_request, running_request, starts, stops, completion_by, completion_in, command_by};
ghost use Rattle.sessions.specs.declared.failure.Failure.TheVariants as variant;
ghost use Rattle.sessions.specs.Options.{AreInRange};
ghost use Rattle.sessions.specs.Outcomes.{said_of, replied_or};
ghost use Rattle.sessions.specs.Texts.{failure_text};
ghost use Rattle.sessions.specs.Worlds.{WorldState};
ghost use Rattle.sessions.specs.Meets.{Answered};
ghost use Rattle.sessions.specs.Refusing.{IsRefusal};

use crate::failure::Failure;
use crate::outcome::Outcome;
use crate::publications::{make_change, publish};
use crate::replies::{failure_reply, null_reply, result_reply};
use crate::session::Session;
use crate::world::World;
use answers::{DocumentState, NamedFiles, Phase};
use decl_index::Change;
use json_rpc::{Id, Refused};
use lsp_forms::{
    Command, Completion, Initialize, ParamFault, make_capabilities, read_command, read_completion,
    read_initialize,
};
use serde_json::Value;
use std::alloc::{AllocError, Global};
use std::thread::Threads;

/// The reply -32602 with a cause.
fn fault_reply(alloc: Global, id: &Id, cause: u32, index: u32) -> Result<Vec<u8>, AllocError>
    ensures body { IfOk result (λ body. body.items ≡ failure_text (Some id.now) (variant.InvalidParams cause index)) }
{
    failure_reply(alloc, Some(id), Failure::InvalidParams { cause, index })
}

/// The reply to parameters that were refused. An Err is want of memory, here or when they were read.
fn refusal_reply(
    alloc: Global,
    id: &Id,
    refused: Refused<ParamFault>,
) -> Result<Vec<u8>, AllocError>
    ensures refusal { IsRefusal id.now refused result }
{
    match refused {
        Refused::Fault(fault) => fault_reply(alloc, id, fault.cause, fault.index),
        Refused::OutOfMemory => Err(AllocError),
    }
}

impl Session {
    /// Answers a request.
    #[tactic(auto, using(crate::proofs::Replied::outcomes))]
    pub fn request<W: World>(
        &mut self,
        rt: &(impl Threads + Sync),
        alloc: Global,
        id: Id,
        method: &str,
        params: &Value,
        world: &mut W,
    ) -> Outcome
        ensures answered { Answered self.old (request_by self.old.phase self.old id method.now (view params.now)) self.new (said_of (Ok result)) (W.state world.old) (W.state world.new) }
    {
        match self.reply(rt, alloc, &id, method, params, world) {
            Ok(reply) => Outcome::Reply(reply),
            Err(_) => Outcome::NoMemory(id),
        }
    }

    /// The reply to a request. An Err is want of memory, and leaves the session as it was.
    #[tactic(auto, using(crate::proofs::Replied::phases))]
    fn reply<W: World>(
        &mut self,
        rt: &(impl Threads + Sync),
        alloc: Global,
        id: &Id,
        method: &str,
        params: &Value,
        world: &mut W,
    ) -> Result<Vec<u8>, AllocError>
        ensures answered { Answered self.old (request_by self.old.phase self.old id.now method.now (view params.now)) self.new (replied_or id.now result) (W.state world.old) (W.state world.new) }
    {
        match self.phase {
            Phase::Fresh => self.reply_fresh(alloc, id, method, params),
            Phase::Running => self.reply_running(rt, alloc, id, method, params, world),
            Phase::Stopped => failure_reply(alloc, Some(id), Failure::InvalidRequest),
        }
    }

    /// The reply before `initialize` was answered.
    #[tactic(auto, using(crate::proofs::Replied::fresh))]
    fn reply_fresh(
        &mut self,
        alloc: Global,
        id: &Id,
        method: &str,
        params: &Value,
    ) -> Result<Vec<u8>, AllocError>
        ensures answered { (w : WorldState) → Answered self.old (fresh_request id.now method.now (view params.now)) self.new (replied_or id.now result) w w }
    {
        if method != "initialize" {
            return failure_reply(alloc, Some(id), Failure::NotInitialized);
        }
        match read_initialize(params) {
            Ok(options) => self.start(alloc, id, options),
            Err(refused) => refusal_reply(alloc, id, refused),
        }
    }

    /// Starts with these options.
    #[tactic(auto, using(crate::proofs::Replied::ends))]
    fn start(&mut self, alloc: Global, id: &Id, options: Initialize) -> Result<Vec<u8>, AllocError>
        requires options { AreInRange options }
        ensures answered { (w : WorldState) → Answered self.old (starts id.now options) self.new (replied_or id.now result) w w }
    {
        let capabilities = make_capabilities(alloc)?;
        let reply = result_reply(alloc, id, capabilities)?;
        self.options = options;
        self.phase = Phase::Running;
        Ok(reply)
    }

    /// The reply between `initialize` and `shutdown`.
    fn reply_running<W: World>(
        &mut self,
        rt: &(impl Threads + Sync),
        alloc: Global,
        id: &Id,
        method: &str,
        params: &Value,
        world: &mut W,
    ) -> Result<Vec<u8>, AllocError>
        ensures answered { Answered self.old (running_request self.old id.now method.now (view params.now)) self.new (replied_or id.now result) (W.state world.old) (W.state world.new) }
    {
        if method == "textDocument/completion" {
            return self.complete(alloc, id, params, world);
        }
        if method == "workspace/executeCommand" {
            return self.command(rt, alloc, id, params, world);
        }
        if method == "shutdown" {
            return self.stop(alloc, id);
        }
        if method == "initialize" {
            return failure_reply(alloc, Some(id), Failure::InvalidRequest);
        }
        failure_reply(alloc, Some(id), Failure::UnknownMethod)
    }

    /// Answers `shutdown`.
    #[tactic(auto, using(crate::proofs::Replied::ends))]
    fn stop(&mut self, alloc: Global, id: &Id) -> Result<Vec<u8>, AllocError>
        ensures answered { (w : WorldState) → Answered self.old (stops id.now) self.new (replied_or id.now result) w w }
    {
        let reply = null_reply(alloc, id)?;
        self.phase = Phase::Stopped;
        Ok(reply)
    }

    /// Answers a completion.
    #[tactic(auto, using(crate::proofs::Replied::forms))]
    fn complete<W: World>(
        &mut self,
        alloc: Global,
        id: &Id,
        params: &Value,
        world: &mut W,
    ) -> Result<Vec<u8>, AllocError>
        ensures answered { Answered self.old (completion_by self.old id.now (completion_of (view params.now))) self.new (replied_or id.now result) (W.state world.old) (W.state world.new) }
    {
        match read_completion(alloc, params) {
            Ok(form) => self.complete_in(alloc, id, &form, world),
            Err(refused) => refusal_reply(alloc, id, refused),
        }
    }

    /// Answers a completion in the document that it names.
    fn complete_in<W: World>(
        &mut self,
        alloc: Global,
        id: &Id,
        form: &Completion,
        world: &mut W,
    ) -> Result<Vec<u8>, AllocError>
        ensures answered { Answered self.old (completion_in self.old id.now form.now (document_of form.now.uri self.old.documents)) self.new (replied_or id.now result) (W.state world.old) (W.state world.new) }
    {
        match self.documents.state(form.uri.as_str()) {
            None => fault_reply(alloc, id, 3, 0),
            Some(DocumentState::Unsure) => fault_reply(alloc, id, 4, 0),
            Some(DocumentState::NoMemory) => Err(AllocError),
            Some(DocumentState::Sure(document)) => {
                match document.offset(form.line, form.character) {
                    None => fault_reply(alloc, id, 5, 0),
                    Some(place) => self
                        .cursors
                        .complete(alloc, id, document, place, self.options, world),
                }
            }
        }
    }

    /// Answers a command.
    fn command<W: World>(
        &mut self,
        rt: &(impl Threads + Sync),
        alloc: Global,
        id: &Id,
        params: &Value,
        world: &mut W,
    ) -> Result<Vec<u8>, AllocError>
        ensures answered { Answered self.old (command_by id.now (command_of (view params.now))) self.new (replied_or id.now result) (W.state world.old) (W.state world.new) }
    {
        match read_command(alloc, params) {
            Ok(Command::Page { cursor, count }) => {
                self.cursors.page(alloc, id, cursor, count, world)
            }
            Ok(Command::Close { cursor }) => self.cursors.shut(alloc, id, cursor),
            Ok(Command::Explain { cursor, item }) => {
                self.cursors.explain(alloc, id, cursor, item, world)
            }
            Ok(
                Command::Publish {
                    puts,
                    removes,
                    counts,
                    sources,
                    known,
                },
            ) => {
                let files = NamedFiles {
                    puts,
                    sources,
                    known,
                };
                publish(rt, alloc, id, &files, removes, counts, world)
            }
            Ok(Command::Withdraw { through }) => {
                make_change(alloc, id, Change::Withdraw(through), world)
            }
            Ok(Command::SetWeights(weights)) => {
                make_change(alloc, id, Change::SetWeights(weights), world)
            }
            Err(refused) => refusal_reply(alloc, id, refused),
        }
    }
}
