//! `player`: plays queues written as text on standard input, one step to a line, and prints the answer to each step.
#![tactic(auto)]

mod player;
mod reply;
mod step;
mod text;

use player::Player;
use reply::Reply;
use std::alloc::{AllocError, Global};
use std::io;
use std::io::{BufWriter, Write};
use step::read_step;
use text::ReadError;

fn main(rt: HostRuntime) -> anyhow::Result<()> {
    let text = io::read_to_string(rt.alloc(), rt.stdin())?;
    let mut out = BufWriter::new(rt.alloc(), rt.stdout())?;
    let mut player = Player::Idle;
    for line in text.as_str().lines().filter(|line| !is_remark(line)) {
        let reply = reply_to(&mut player, rt.alloc(), line)?;
        writeln!(out, "{reply}")?;
    }
    out.flush()?;
    Ok(())
}

/// Whether a line is empty or a remark, which has no answer.
fn is_remark(line: &str) -> bool {
    line.is_empty() || line.starts_with('#')
}

/// Makes the step that a line writes.
fn reply_to(player: &mut Player, heap: Global, line: &str) -> Result<Reply, AllocError> {
    match read_step(heap, line) {
        Ok(step) => Ok(player.play(&step)),
        Err(ReadError::NoStep) => Ok(Reply::NoStep),
        Err(ReadError::Memory(error)) => Err(error),
    }
}
