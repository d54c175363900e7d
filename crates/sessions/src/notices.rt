ghost use Rattle.std.specs.Prelude.{◌≡◌, Result, Ok, Err, if◌then◌else◌};
ghost use Rattle.serde_json.specs.View.{view};
ghost use Rattle.lsp_forms.specs.Forms.{did_open_of, did_change_of, did_close_of};
ghost use Rattle.answers.specs.declared.types.Phase.TheVariants.{Running};
ghost use Rattle.answers.specs.Messages.{notice_in, running_notice, open_by, change_by, close_by, is_stopped, silent};
ghost use Rattle.sessions.specs.Outcomes.{said_of, silent_or};
ghost use Rattle.sessions.specs.Worlds.{WorldState};
ghost use Rattle.sessions.specs.Meets.{Answered};

use crate::forms::{text_in, uri_in};
use crate::outcome::Outcome;
use crate::session::Session;
use answers::Phase;
use json_rpc::Refused;
use lsp_forms::{DidChange, read_did_change};
use serde_json::Value;
use std::alloc::{AllocError, Global};

impl Session {
    /// Takes a notification. An Err is want of memory for the name of a document that is opened.
    #[tactic(auto, using(crate::proofs::Noticed::noticed))]
    pub fn notice(
        &mut self,
        alloc: Global,
        method: &str,
        params: &Value,
    ) -> Result<Outcome, AllocError>
        ensures answered { (w : WorldState) → Answered self.old (notice_in self.old method.now (view params.now)) self.new (said_of result) w w }
    {
        if method == "exit" {
            return Ok(Outcome::Exit(self.is_stopped()));
        }
        match self.phase {
            Phase::Running => {
                self.edit(alloc, method, params)?;
                Ok(Outcome::Silent)
            }
            _ => Ok(Outcome::Silent),
        }
    }

    /// Whether `shutdown` was answered.
    fn is_stopped(&self) -> bool
        ensures stopped { result ≡ is_stopped self.now.phase }
    {
        match self.phase {
            Phase::Stopped => true,
            _ => false,
        }
    }

    /// Takes the notification of a document; others are dropped.
    fn edit(&mut self, alloc: Global, method: &str, params: &Value) -> Result<(), AllocError>
        ensures answered { (w : WorldState) → Answered self.old (running_notice self.old method.now (view params.now)) self.new (silent_or result) w w }
    {
        if method == "textDocument/didOpen" {
            self.open(alloc, params)
        } else if method == "textDocument/didChange" {
            self.change(alloc, params);
            Ok(())
        } else if method == "textDocument/didClose" {
            self.close(params);
            Ok(())
        } else {
            Ok(())
        }
    }

    /// Takes a `didOpen`; one that isn't well formed is dropped.
    #[tactic(auto, using(crate::proofs::Noticed::noticed))]
    fn open(&mut self, alloc: Global, params: &Value) -> Result<(), AllocError>
        ensures answered { (w : WorldState) → Answered self.old (open_by (did_open_of (view params.now))) self.new (silent_or result) w w }
    {
        let Some(uri) = uri_in(params) else {
            return Ok(());
        };
        let Some(text) = text_in(params) else {
            return Ok(());
        };
        self.documents.open(alloc, uri, text)
    }

    /// Takes a `didChange`; one of a document that isn't open is dropped.
    #[tactic(auto, using(crate::proofs::Noticed::noticed))]
    fn change(&mut self, alloc: Global, params: &Value)
        ensures answered { (w : WorldState) → Answered self.old (change_by self.old (did_change_of (view params.now))) self.new silent w w }
    {
        let Some(uri) = uri_in(params) else {
            return;
        };
        match read_did_change(alloc, params) {
            Ok(form) => {
                let DidChange { uri, changes } = form;
                self.documents.change(alloc, uri.as_str(), changes)
            }
            Err(Refused::OutOfMemory) => self.documents.lose(uri),
            Err(Refused::Fault(_)) => {}
        }
    }

    /// Takes a `didClose`; one of a document that isn't open changes nothing.
    #[tactic(auto, using(crate::proofs::Noticed::noticed))]
    fn close(&mut self, params: &Value)
        ensures answered { (w : WorldState) → Answered self.old (close_by self.old (did_close_of (view params.now))) self.new silent w w }
    {
        if let Some(uri) = uri_in(params) {
            self.documents.close(uri);
        }
    }
}
