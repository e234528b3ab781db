ghost use Rattle.std.specs.Prelude.{◌≡◌};
ghost use Rattle.lk_types.specs.Commands.{IsCommand, IsRequest};
ghost use Rattle.lk_types.specs.Votes.{IsVote};
ghost use Rattle.lk_codec.specs.FieldReading.{read_request, read_command};
ghost use Rattle.lk_codec.specs.Parser.{Finds};
ghost use Rattle.lk_messages.specs.Reading.{read_proposal};

use lk_codec::{
    front_of, read_ballot, read_command, read_position, read_request, skip_command, skip_request,
};
use lk_types::{Command, Position, RealBallot, Request, Vote};
use std::marker::Model;

/// A client's request in a datagram: the bytes that spell it and nothing else. A contract sees the request.
#[derive(Drop)]
pub struct RequestRef<'a> {
    bytes: &'a [u8],
}

impl<'a> Model for RequestRef<'a> {
    ghost use Rattle.lk_types.specs.declared.command.Request.{Request};
    ghost use Rattle.lk_wire.specs.Views.{request_in, IsOneRequest};

    ghost Value = { Request };

    ghost view = { λ r. request_in r.bytes.now };

    ghost invariant = { λ r. IsOneRequest r.bytes.now };
}

impl<'a> RequestRef<'a> {
    // Reads the request at the start of the bytes in place, and returns it with the bytes after it.
    pub(crate) fn of(bytes: &'a [u8]) -> Option<(RequestRef<'a>, &'a [u8])>
        ensures { Finds (λ x. (x.0, x.1.now)) result (read_request bytes.now) }
    {
        let rest = skip_request(bytes)?;
        let bytes = front_of(bytes, rest);
        Some((RequestRef { bytes }, rest))
    }

    /// Returns the request, parsed from its bytes.
    pub fn request(&self) -> Request
        ensures value { result ≡ self.now }
        ensures in_range { IsRequest self.now }
    {
        let Some((request, _)) = read_request(self.bytes) else {
            unreachable!()
        };
        request
    }
}

/// A command in a datagram: the bytes that spell it and nothing else. A contract sees the command.
#[derive(Drop)]
pub struct CommandRef<'a> {
    bytes: &'a [u8],
}

impl<'a> Model for CommandRef<'a> {
    ghost use Rattle.lk_types.specs.declared.command.Command.{Command};
    ghost use Rattle.lk_wire.specs.Views.{command_in, IsOneCommand};

    ghost Value = { Command };

    ghost view = { λ c. command_in c.bytes.now };

    ghost invariant = { λ c. IsOneCommand c.bytes.now };
}

impl<'a> CommandRef<'a> {
    // Reads the command at the start of the bytes in place, and returns it with the bytes after it.
    pub(crate) fn of(bytes: &'a [u8]) -> Option<(CommandRef<'a>, &'a [u8])>
        ensures { Finds (λ x. (x.0, x.1.now)) result (read_command bytes.now) }
    {
        let rest = skip_command(bytes)?;
        let bytes = front_of(bytes, rest);
        Some((CommandRef { bytes }, rest))
    }

    /// Returns the command, parsed from its bytes.
    pub fn command(&self) -> Command
        ensures value { result ≡ self.now }
        ensures in_range { IsCommand self.now }
    {
        let Some((command, _)) = read_command(self.bytes) else {
            unreachable!()
        };
        command
    }
}

/// The vote that an Accept proposes or an Accepted reports, read in place. A contract sees the vote.
#[derive(Drop)]
pub struct VoteRef<'a> {
    position: Position,
    ballot: RealBallot,
    command: CommandRef<'a>,
}

impl<'a> Model for VoteRef<'a> {
    ghost use Rattle.lk_types.specs.declared.vote.Vote.{Vote};

    ghost Value = { Vote };

    ghost view = { λ v. record { position = v.position; ballot = v.ballot; command = v.command } };
}

impl<'a> VoteRef<'a> {
    // Reads a ballot, a position and a command, and returns them as a vote with the bytes after them.
    #[tactic(auto, unfolding(lk_messages::specs::Reading::read_proposal))]
    pub(crate) fn of(bytes: &'a [u8]) -> Option<(VoteRef<'a>, &'a [u8])>
        ensures { Finds (λ x. (x.0, x.1.now)) result (read_proposal bytes.now) }
    {
        if let Some((ballot, rest)) = read_ballot(bytes)
            && let Some((position, rest)) = read_position(rest)
            && let Some((command, rest)) = CommandRef::of(rest)
        {
            let vote = VoteRef {
                position,
                ballot,
                command,
            };
            return Some((vote, rest));
        }
        None
    }

    /// Returns the vote, with its command parsed from its bytes.
    pub fn vote(&self) -> Vote
        ensures value { result ≡ self.now }
        ensures in_range { IsVote self.now }
    {
        let (position, ballot) = (self.position, self.ballot);
        let _ = (position.get(), ballot.get());
        let command = self.command.command();
        Vote {
            position,
            ballot,
            command,
        }
    }
}
