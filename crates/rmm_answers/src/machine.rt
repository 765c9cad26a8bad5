//! The simulated RMM that a trace's `platform` line creates, and that performs the calls of the trace.
ghost use Rattle.std.specs.Prelude.{◌≡◌, None, OnOk, OnErr, option_and_then};
ghost use Rattle.rmm_answers.specs.Answering as specs;
ghost use Rattle.rmm_answers.specs.Platform.{machine_of_platform};
ghost use Rattle.rmm_answers.specs.Words.{first_place};
ghost use Rattle.rmm_trace.specs.Compare.{rest_of};
ghost use Rattle.rmm_trace.specs.declared.place.TheConstants.{PLATFORM};

use crate::answering::{answer_on, checks_on};
use crate::platform::{is_platform, open_platform};
use crate::reply::TraceReply;
use page_arena::PlainStore;
use rmm::Rmm;
use rmm_checks::EvaluatedChecks;
use rmm_trace::TraceWord;
use std::alloc::{AllocError, Global};
use std::marker::Model;

/// The RMM that answers a trace. Before the first valid `platform` line there is no RMM.
#[derive(Drop)]
pub struct TraceMachine {
    rmm: Option<Rmm<PlainStore>>,
}

impl Model for TraceMachine {
    ghost use Rattle.std.specs.Prelude.{Option};
    ghost use Rattle.std.specs.Coded.{coded_option};
    ghost use Rattle.rmm_model.specs.Machine.{Machine};
    ghost use Rattle.rmm_model.specs.Codes.{machine_code};

    ghost Value = { Option Machine };

    ghost coded = { coded_option machine_code };

    ghost view = { λ trace. trace.rmm };
}

impl TraceMachine {
    /// Creates a `TraceMachine` without an RMM, as before the first `platform` question.
    pub fn new() -> TraceMachine
        ensures { result ≡ None }
    {
        TraceMachine { rmm: None }
    }

    // Opens the machine of a platform.
    fn open(
        &mut self,
        alloc: Global,
        question: &[TraceWord],
        reply: &mut TraceReply,
    ) -> Result<(), AllocError>
        ensures ok { OnOk result ((reply.new, self.new) ≡ specs.after_opening (machine_of_platform (rest_of question.now)) self.old) }
        ensures err { OnErr result (self.new ≡ self.old) }
    {
        match open_platform(alloc, question)? {
            Some(rmm) => {
                self.rmm = Some(rmm);
                reply.clear();
            }
            None => reply.no_command(),
        }
        Ok(())
    }

    // Answers a question that is not a platform.
    fn answer_here(&mut self, question: &[TraceWord], reply: &mut TraceReply)
        ensures { (reply.new, self.new) ≡ specs.answered_in question.now self.old }
    {
        match &mut self.rmm {
            Some(rmm) => answer_on(rmm, question, reply),
            None => reply.no_command(),
        }
    }

    /// Performs what a trace's question asks of the machine, and writes the answer to `reply`. A `platform` question
    /// opens a fresh machine, or gets the answer `no command`. No other question takes memory, and an error leaves the
    /// machine unchanged. Before the first platform that is opened, any other question gets the answer `no command`.
    #[tactic(auto, unfolding(crate::specs::Answering::answered))]
    pub fn answer(
        &mut self,
        alloc: Global,
        question: &[TraceWord],
        reply: &mut TraceReply,
    ) -> Result<(), AllocError>
        ensures ok { OnOk result ((reply.new, self.new) ≡ specs.answered question.now self.old) }
        ensures err { OnErr result (self.new ≡ self.old) }
        ensures platform { OnErr result (first_place question.now ≡ PLATFORM) }
    {
        if is_platform(question) {
            return self.open(alloc, question, reply);
        }
        self.answer_here(question, reply);
        Ok(())
    }

    /// Evaluates the checks of an RMI command that the machine has refused, or returns `None` if no command was
    /// refused. `reply` is the reply to the call. The machine is still the one at the call, since a refusal changes
    /// nothing.
    pub fn checks(&self, question: &[TraceWord], reply: &TraceReply) -> Option<EvaluatedChecks>
        ensures { result ≡ option_and_then (specs.refused_checks question.now reply.now) self.now }
    {
        match &self.rmm {
            Some(rmm) => checks_on(rmm, question, reply),
            None => None,
        }
    }
}
