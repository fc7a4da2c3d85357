// The commands `store N`, `part HEX`, `end READING` and `reset`: a payload that comes over the serial cable.
use crate::command::{Object, Reading};
use crate::{configuration, request};
use cojp_serial::SerialState;
use tool_text::first;
use tool_text::output::Output;

// What has come, and how much of the store is lent.
#[derive(Clone, Copy)]
pub struct SerialInput {
    state: SerialState,
    lent: usize,
    store: [u8; 512],
}

impl SerialInput {
    pub fn new() -> SerialInput {
        SerialInput {
            state: cojp_serial::reset(),
            lent: 256,
            store: [0; 512],
        }
    }

    pub fn lend(&mut self, lent: usize, out: &mut Output) {
        self.lent = lent;
        write!(out, "lent {lent}");
    }

    pub fn reset(&mut self, out: &mut Output) {
        self.state = cojp_serial::reset();
        write!(out, "reset");
    }

    pub fn part(&mut self, sent: &[u8], out: &mut Output) {
        let lent = self.lent.min(self.store.len());
        let answer = cojp_serial::part(self.state, &mut self.store[..lent], sent);
        self.state = answer.state;
        match answer.verdict {
            Ok(()) => write!(out, "held {}", self.state.arrived),
            Err(refusal) => tool_notation::put_refusal(out, refusal),
        }
    }

    pub fn end(&mut self, reading: Reading, out: &mut Output) {
        let Reading {
            object,
            version,
            strict,
        } = reading;
        let lent = first(&self.store, self.lent);
        match object {
            Object::Request => {
                let end = cojp_serial::end_request(self.state, lent, version, strict);
                self.state = end.state;
                request::put_read(out, version, end.read);
            }
            Object::Configuration => {
                let end = cojp_serial::end_configuration(self.state, lent, version, strict);
                self.state = end.state;
                configuration::put_read(out, version, end.read);
            }
        }
    }
}
