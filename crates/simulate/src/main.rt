// The desk tool simulate: up to 16 nodes, made and called by lines of standard input (docs/TOOLS.md).
#![tactic(auto)]

mod nodes;

use nodes::{Nodes, execute};
use std::io;
use tool_simulate::{Command, next_command};
use tool_simulate_answers::put_answer;
use tool_simulate_reply::Reply;
use tool_text::input::Input;
use tool_text::output::Output;
use tool_text::session::Session;

// What is kept from line to line.
#[derive(Drop)]
struct Simulation {
    nodes: Nodes,
    // how many bytes a start may write
    room: usize,
    payload: tool_notation::Payload,
}

impl Simulation {
    // Answers the next line; an empty one and a comment are not answered.
    fn answer_line(&mut self, session: &mut Session) {
        match next_command(session, &mut self.payload) {
            Ok(None) => {}
            Ok(Some(command)) => self.carry_out(command, session.out),
            Err(error) => write!(session.out, "{error}\n"),
        }
    }

    // Carries a command out, and answers it.
    fn carry_out(&mut self, command: Command, out: &mut Output) {
        let reply = execute(&mut self.nodes, command, self.room, &mut self.payload);
        if let Ok(Reply::Lent(room)) = reply {
            self.room = room;
        }
        put_answer(out, reply, &self.payload);
    }
}

fn main(rt: HostRuntime) -> io::Result<()> {
    let mut input = Input::new(rt.stdin());
    let mut out = Output::new(rt.stdout());
    let session = Session::begin(
        &rt,
        &mut input,
        &mut out,
        "simulate: up to 16 nodes and their life, joining, updates, frames (docs/TOOLS.md).\n\
node I ROLE NETWORK, new-node I ROLE NETWORK (RFC 9031), start I TIME TIMEOUT, poll I TIME, answer I TIME HEX, update I TIME HEX,\n\
holds I TIME, send I TYPE, receive I TYPE IDENTIFIER, verified I TYPE IDENTIFIER, turn I J TYPE, show I,\n\
room N: how many bytes are lent to a start; set I FIELD VALUE, set I counter IDENTIFIER N\n",
    );
    let mut simulation = Simulation {
        nodes: [None; 16],
        room: 256,
        payload: tool_notation::no_payload(),
    };
    session.run(|session| simulation.answer_line(session))
}
