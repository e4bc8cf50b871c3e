ghost use Rattle.std.specs.Prelude.{◌≡◌, ◌≢◌, ◌≤◌, ◌<◌, IsSome, None, Some, length};
ghost use Rattle.mesh_outside.specs.Causes.{Rose, Unrisen};
ghost use Rattle.line_run.specs.Run.{TookLimit, IsAnswered, IsTooLong};
ghost use Rattle.gen_cluster.specs.Generated.{generated};
ghost use Rattle.replay_core.specs.Headline.{RefusesSome, StandsAtEnd, WritesFront, WritesOutput, WritesPlain, WritesSaid, WritesSaidFront};
ghost use Rattle.feed_history.specs.KnownPatterns.{known_over};
ghost use Rattle.output_fold.specs.Headline.{WritesFolded, WritesFoldedFront};
ghost use Rattle.diagnosis.specs.Headline.{WritesDiagnosed, WritesDiagnosedFront};
ghost use Rattle.cluster_sample.specs.Headline.{WritesSample, WritesSampleFront};
ghost use Rattle.command_words.specs.Commands.{command_in};
ghost use Rattle.command_words.specs.declared.command.Command.TheVariants as commands;
ghost use Rattle.command_run.specs.Outcome.{AtEnd, AtStop, EndsWith, IsUnread, OfBytes, OfCommand, OfDiagnose, OfFold, OfReplay, OfSample, OfServe, IsServed, ServesBy, read_by, server_of};

use cluster_sample::sample::sample;
use command_words::command::Command;
use command_words::fault::WordsFault;
use command_words::words::read_words;
use diagnosis::diagnose::diagnose;
use line_run::Status;
use mesh_base::limits::Limits;
use mesh_base::sub_id::SubId;
use mesh_base::text::Text;
use mesh_hub::machine::Machine;
use mesh_outside::{Patterns, Sink, Source};
use output_fold::fold::fold_file;
use replay_core::replay::replay;
use serve_config::ServeConfig;
use std::alloc::Global;
use view_types::config::Config;
use view_types::query::{Method, Query};

/// The outcome of a call of the program.
#[derive(Drop)]
pub enum Outcome {
    /// The command has ended with this status.
    Ended(Status),
    /// The words ask for a server with this configuration, which the caller is to run.
    Serve(ServeConfig),
}

/// Runs the command that the words give, from the input to the output. For `serve` it returns the
/// configuration of the server, which the caller runs.
pub fn top<H: Machine, S: Source, K: Sink, P: Patterns>(
    alloc: Global,
    words: &[Text],
    limits: &Limits,
    hub: &mut H,
    input: &mut S,
    out: &mut K,
    patterns: &mut P,
) -> Outcome
    requires { 1 ≤ limits.now.frame_addrs }

    // ---- the command line

    // Words that give a command are not refused.
    ensures usage { IsSome (command_in words.now)
        → EndsWith result (λ status. status ≢ Status.Usage) }
    // Words that give no command are refused, unless memory ran out.
    ensures refused { command_in words.now ≡ None → EndsWith result IsUnread }
    // In both cases nothing was read or written.
    ensures untouched { EndsWith result (λ status. status ≡ Status.Usage
        → (hub.new ≡ hub.old) × (input.new ≡ input.old) × (out.new ≡ out.old)
        × (patterns.new ≡ patterns.old)) }
    ensures unread { command_in words.now ≡ None
        → (hub.new ≡ hub.old) × (input.new ≡ input.old) × (out.new ≡ out.old)
        × (patterns.new ≡ patterns.old) }

    // ---- replay

    // If all lines were read and the machine's state is known, what was written is the defined
    // output. In it, at most as many simulations met refused patterns as the count of refusals
    // rose. The status says whether a line was refused.
    ensures output { OfReplay words.now (λ config. AtEnd result (WritesOutput config limits.now
        (known_over P.Patterns patterns.old patterns.new)
        (H.state hub.old) (S.left input.old) (K.held out.old) (K.held out.new))) }

    // If no pattern was refused, no simulation met a refused one.
    ensures quiet { OfReplay words.now (λ config. AtEnd result (WritesPlain config limits.now
        (known_over P.Patterns patterns.old patterns.new)
        (H.state hub.old) (S.left input.old) (K.held out.old) (K.held out.new))) }

    // Whether a line was refused does not depend on what patterns match.
    ensures refuses { OfReplay words.now (λ config. AtEnd result (RefusesSome config limits.now
        (known_over P.Patterns patterns.old patterns.new) (H.state hub.old) (S.left input.old))) }

    // The machine's state is then that at the end of the input.
    ensures state { OfReplay words.now (λ config. AtEnd result (λ refused.
        StandsAtEnd config limits.now (H.state hub.old) (H.state hub.new) (S.left input.old))) }

    // If the machine's replies are known, what was written is defined by the lines and the replies.
    ensures said { OfReplay words.now (λ config. AtEnd result (WritesSaid config limits.now
        (H.replies hub.old) (H.replies hub.new) (S.left input.old) (K.held out.old)
        (K.held out.new))) }

    // If the run ends early, what was written is a prefix of the defined output.
    ensures front { OfReplay words.now (λ config. AtStop result (WritesFront config limits.now
        (known_over P.Patterns patterns.old patterns.new)
        (H.state hub.old) (S.left input.old) (K.held out.old) (K.held out.new))) }

    // The same, by the replies if they are known.
    ensures said_front { OfReplay words.now
        (λ config. AtStop result (WritesSaidFront config limits.now
        (H.replies hub.old) (H.replies hub.new) (S.left input.old) (K.held out.old)
        (K.held out.new))) }

    // ---- diagnose

    // If all lines were read, what was written is the defined output, and the status says whether a
    // line was refused. If the run ends early, what was written is a prefix of it. The machine is
    // unchanged.
    ensures diagnosed { OfDiagnose words.now (λ id query config.
        AtEnd result (WritesDiagnosed config limits.now
        id.0 query (S.left input.old) (K.held out.old) (K.held out.new))) }
    ensures diagnosed_front { OfDiagnose words.now (λ id query config.
        AtStop result (WritesDiagnosedFront config
        limits.now id.0 query (S.left input.old) (K.held out.old) (K.held out.new))) }
    ensures undiagnosed { OfDiagnose words.now (λ id query config.
        (hub.new ≡ hub.old) × (patterns.new ≡ patterns.old)) }

    // ---- fold

    // If all lines were read, what was written is the defined output, and the status says whether a
    // line could not be read. If the run ends early, what was written is a prefix of it. The
    // machine is unchanged.
    ensures folded { OfFold words.now (λ id method. AtEnd result (WritesFolded method id.0
        limits.now (S.left input.old) (K.held out.old) (K.held out.new))) }
    ensures folded_front { OfFold words.now
        (λ id method. AtStop result (WritesFoldedFront method id.0
        limits.now (S.left input.old) (K.held out.old) (K.held out.new))) }
    ensures unheld { OfFold words.now (λ id method.
        (hub.new ≡ hub.old) × (patterns.new ≡ patterns.old)) }

    // ---- sample

    // If all lines of the generated cluster were replayed, the counts of the replay's output were
    // written, and the status says whether a line was refused. If the run ends early, nothing was
    // written, or a prefix of the counts.
    ensures sampled { OfSample words.now (λ n config. AtEnd result (WritesSample config limits.now
        (known_over P.Patterns patterns.old patterns.new)
        (H.state hub.old) (H.replies hub.old) (H.replies hub.new) n (K.held out.old)
        (K.held out.new))) }
    ensures sampled_front { OfSample words.now (λ n config.
        AtStop result (WritesSampleFront config limits.now
        (known_over P.Patterns patterns.old patterns.new)
        (H.state hub.old) (H.replies hub.old) (H.replies hub.new) n (K.held out.old)
        (K.held out.new))) }

    // The machine's state is then that at the end of the generated lines.
    ensures sampled_state { OfSample words.now (λ n config. AtEnd result (λ refused.
        StandsAtEnd config limits.now (H.state hub.old) (H.state hub.new) (Some (generated n)))) }

    // The input is not read.
    ensures sampled_alone { OfSample words.now (λ n config.
        (input.new ≡ input.old) × EndsWith result (λ status. status ≢ Status.ReadFault)) }

    // ---- serve

    // The result has the address and the configuration that the words give, and the limits of the
    // call.
    ensures serve { OfServe words.now (λ address config.
        IsServed (server_of address config limits.now) result) }
    // Only `serve` has this result.
    ensures served { ServesBy result (λ server.
        (command_in words.now ≡ Some (commands.Serve server.address server.config))
        × (server.limits ≡ limits.now)) }
    // Nothing is read or written.
    ensures unserved { OfServe words.now (λ address config.
        (hub.new ≡ hub.old) × (input.new ≡ input.old) × (out.new ≡ out.old)
        × (patterns.new ≡ patterns.old)) }

    // ---- any command

    // The counts of faults and refusals never decrease, and each new fault has its status.
    ensures later { P.refusals patterns.old ≤ P.refusals patterns.new }
    ensures read_later { S.faults input.old ≤ S.faults input.new }
    ensures write_later { K.faults out.old ≤ K.faults out.new }
    ensures read_told { EndsWith result (λ status.
        status ≢ Status.ReadFault → S.faults input.new ≡ S.faults input.old) }
    ensures write_told { EndsWith result (λ status.
        status ≢ Status.WriteFault → K.faults out.new ≡ K.faults out.old) }

    // The cause of each other status.
    ensures read { EndsWith result (λ status.
        status ≡ Status.ReadFault → Rose (S.faults input.old) (S.faults input.new)) }
    ensures write { EndsWith result (λ status.
        status ≡ Status.WriteFault → Rose (K.faults out.old) (K.faults out.new)) }
    ensures long { OfCommand words.now (λ command. EndsWith result (λ status.
        status ≡ Status.InputTooLong
        → TookLimit limits.now.input (read_by command (S.left input.old)))) }
    ensures complete { OfCommand words.now (λ command. EndsWith result (λ status.
        Unrisen (S.faults input.old) (S.faults input.new)
        → Unrisen (K.faults out.old) (K.faults out.new)
        → OfBytes command (S.left input.old) (λ bytes.
        length bytes < limits.now.input → IsAnswered status))) }
    ensures too_long { OfCommand words.now (λ command. EndsWith result (λ status.
        Unrisen (S.faults input.old) (S.faults input.new)
        → Unrisen (K.faults out.old) (K.faults out.new)
        → OfBytes command (S.left input.old) (λ bytes.
        limits.now.input ≤ length bytes → IsTooLong status))) }
{
    match read_words(alloc, words) {
        Ok(Command::Replay(config)) => {
            Outcome::Ended(replay(alloc, hub, &config, limits, input, out, patterns))
        }
        Ok(Command::Diagnose { id, query, config }) => {
            Outcome::Ended(diagnose(alloc, &config, limits, id, &query, input, out))
        }
        Ok(Command::Fold { id, method }) => {
            Outcome::Ended(fold_file(alloc, method, id, limits, input, out))
        }
        Ok(Command::Sample { n, config }) => {
            Outcome::Ended(sample(alloc, hub, &config, limits, n, out, patterns))
        }
        Ok(Command::Serve { address, config }) => Outcome::Serve(ServeConfig {
            address,
            config,
            limits: *limits,
        }),
        Err(WordsFault::Usage) => Outcome::Ended(Status::Usage),
        Err(WordsFault::Memory) => Outcome::Ended(Status::Memory),
    }
}
