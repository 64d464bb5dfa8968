// A script as it is played.
ghost use Rattle.std.specs.Prelude.{◌≡◌, ◌↔◌, ◌≤◌, ◌<◌, ◌∷◌, [], ℕ, ◌+◌, length, true, false, None, slice_get, IfOk, OnErr, Ok};
ghost use Rattle.script_line.specs.Playable.{ArePlayable};
ghost use Rattle.client_api.specs.Ports.{Log};
ghost use Rattle.client_api.specs.Steps.{IsOn, GivesOn, left};
ghost use Rattle.client_api.specs.Playing.{Playing};
ghost use Rattle.client_api.specs.Players.{IsPlaying, IsReady, AreNamesOn, PlayerStepped, IsNext, closed, steps_left, steps_later};

use crate::call::{ApiCall, Step};
use crate::handle::CardHandle;
use crate::port::Port;
use crate::prepare::{call_of, handle_name};
use crate::readers::Readers;
use piv_model::{ApiAnswer, NoMemory};
use script_line::Script;
use std::alloc::Global;
use std::marker::Model;

/// A handle under its name in a script.
#[derive(Drop)]
pub struct NamedHandle<'a> {
    pub name: &'a str,
    pub handle: CardHandle,
}

/// Plays one script: its lines' calls, one after the other.
#[derive(Drop)]
pub struct Player<'a> {
    alloc: Global,
    script: &'a Script,
    call: Option<ApiCall>,
    // The newest is the last.
    handles: Vec<NamedHandle<'a>>,
    answers: Vec<ApiAnswer>,
}

impl<'a> Model for Player<'a> {
    ghost use Rattle.std.specs.Prelude.{◌≤◌, map, reverse, length, vec_capacity};
    ghost use Rattle.client_api.specs.Held.{named_of};
    ghost use Rattle.script_line.specs.Playable.{ArePlayable};
    ghost use Rattle.client_api.specs.Players.{Played};

    ghost Value = { Played };

    ghost view = { λ p. record {
      lines = p.script.now.lines;
      answers = p.answers.items;
      handles = map named_of (reverse p.handles.items);
      call = p.call;
    } };

    ghost invariant = { λ p.
        (length p.script.now.lines ≤ vec_capacity p.answers)
        × (length p.script.now.lines ≤ vec_capacity p.handles)
        × (length p.handles.items ≤ length p.answers.items)
        × (length p.answers.items ≤ length p.script.now.lines)
        × ArePlayable p.script.now.lines };
}

impl<'a> Player<'a> {
    /// A player at the beginning of a script. It has a place for each line's answer. An AID has at most 16 bytes, a put
    /// value 16,512, the input of crypt 255, an APDU 512, and the key of an admin line 16, 24 or 32.
    pub fn new(alloc: Global, script: &'a Script) -> Result<Player<'a>, NoMemory>
        requires { ArePlayable script.now.lines }
        ensures { IfOk result (λ p. p ≡ record {
          lines = script.entry.now.lines;
          answers = [];
          handles = [];
          call = None;
        }) }
    {
        let answers = Vec::with_capacity(alloc, script.len())?;
        let handles = Vec::with_capacity(alloc, script.len())?;
        Ok(Player {
            alloc,
            script,
            call: None,
            handles,
            answers,
        })
    }

    /// The next step: one turn, or the answer of a line that answers without one. False exactly where the script had
    /// ended; then nothing is done. Want of memory is told before any turn, and leaves the player as it was.
    pub fn step<P: Port>(&mut self, port: &mut P, readers: &Readers) -> Result<bool, NoMemory>
        requires ready { IsReady (P.cards port.old) self.old }
        requires names { AreNamesOn (P.cards port.old) readers.now }
        ensures stepped { IfOk result (λ more. (at : Playing) (log : Log) →
            IsPlaying self.old at → P.stands port.old log →
            PlayerStepped more readers.now at self.new (P.stands port.new) (P.seen port.new) (P.turns port.new) log) }
        ensures ended { (length self.old.answers ≡ length self.old.lines) ↔ (result ≡ Ok false) }
        ensures nothing { result ≡ Ok false → (self.new ≡ self.old) × (port.new ≡ port.old) }
        ensures refused { OnErr result ((self.new ≡ self.old) × (port.new ≡ port.old)) }
        ensures falls { result ≡ Ok true → steps_left self.new < steps_left self.old }
        ensures lines { self.new.lines ≡ self.old.lines }
        ensures ready { IsReady (P.cards port.new) self.new }
        ensures cards { P.cards port.new ≡ P.cards port.old }
        ensures bases { P.bases port.new ≡ P.bases port.old }
        ensures turns { (k : ℕ) → P.turns port.new k ≡ P.turns port.old k }
        ensures seen { (k : ℕ) → P.seen port.old k ≤ P.seen port.new k }
    {
        if self.answers.len() == self.script.len() {
            return Ok(false);
        }
        let mut call = self.next_call(readers)?;
        let step = call.step(port);
        self.close(call, step);
        Ok(true)
    }

    // The call in progress, or that of the next line.
    fn next_call(&mut self, readers: &Readers) -> Result<ApiCall, NoMemory>
        requires { length self.old.answers < length self.old.lines }
        ensures next { IfOk result (λ call. (at : Playing) → IsPlaying self.old at →
            IsNext readers.now self.new at call) }
        ensures kept { IfOk result (λ call. self.new ≡ record self.old { call = None }) }
        ensures refused { OnErr result (self.new ≡ self.old) }
        ensures few { IfOk result (λ call. left call + steps_later self.old < steps_left self.old) }
        ensures on { IfOk result (λ call. (cards : ℕ) → IsReady cards self.old → AreNamesOn cards readers.now →
            IsOn cards call) }
    {
        match self.call.take() {
            Some(call) => return Ok(call),
            None => (),
        }
        let line = self.script.line(self.answers.len());
        let call = call_of(self.alloc, line, readers, &self.handles)?;
        Ok(call)
    }

    // Keeps a call that goes on, or the answer and the handle of one that was Done.
    fn close(&mut self, call: ApiCall, step: Step)
        requires { length self.old.answers < length self.old.lines }
        ensures closed { self.new ≡ closed self.old call step }
    {
        match step {
            Step::More => self.call = Some(call),
            Step::Done { answer, handle } => {
                let name = handle_name(self.script.line(self.answers.len()));
                self.call = None;
                self.answers.push_reserved(answer);
                if let Some(handle) = handle {
                    self.handles.push_reserved(NamedHandle { name, handle });
                }
            }
        }
    }

    /// The answers so far, one for each line that has its answer.
    pub fn answers(&self) -> &[ApiAnswer]
        ensures { result.now ≡ self.now.answers }
    {
        &self.answers
    }

    /// The same, handed over.
    pub fn into_answers(self) -> Vec<ApiAnswer>
        ensures { result.items ≡ self.entry.answers }
    {
        self.answers
    }
}
