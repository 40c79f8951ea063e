//! The program. Its `main` hands the arguments, the files, the sockets and the standard streams to
//! `run` of `dump_replay`, which does all else, and exits with the status that `run` answers.
#![tactic(auto)]

ghost use Rattle.std.specs.Prelude.{◌≡◌, ◌≢◌, [], IfOk, IfErr, IsErr, IsOkAnd};
ghost use Rattle.std.specs.IoError.{error_kind};
ghost use Rattle.std.specs.Process.{exit_status};
ghost use Rattle.std.specs.Vec.Iter.{into_iter_items};

use dump_replay::run::run;
use io_edges::{FileShelf, ReadSource, TcpWire, WriteSink};
use std::alloc::{AllocError, Global};
use std::env::{self, Args};
use std::io::{self, ErrorKind};
use std::process::ExitCode;

// Four times the usual quota on content.
const KEPT_FROM_NOW: usize = 1024 * 1024;

// The arguments that the system gives. If one of them isn't text, there are none, which `run`
// refuses as invalid. Any other error is lack of memory.
fn words_of(alloc: Global, told: io::Result<Args>) -> io::Result<Vec<String>>
    ensures text { IfOk told (λ args. IfOk result (λ words. words.items ≡ into_iter_items args)) }
    ensures no_text { IfErr told
        (λ e. error_kind e ≡ ErrorKind.InvalidData → IsOkAnd result (λ words. words.items ≡ [])) }
    ensures wanted { IfErr told (λ e. error_kind e ≢ ErrorKind.InvalidData → IsErr result) }
{
    match told {
        Ok(words) => Ok(list_of(alloc, words)?),
        Err(error) if error.kind() == ErrorKind::InvalidData => Ok(Vec::new(alloc)),
        Err(error) => Err(error),
    }
}

fn list_of(alloc: Global, words: Args) -> Result<Vec<String>, AllocError>
    ensures { IfOk result (λ list. list.items ≡ into_iter_items words) }
{
    words.collect(alloc)
}

fn exit(status: u8) -> ExitCode
    ensures { exit_status result ≡ status }
{
    ExitCode::from(status)
}

// Has the allocator keep what is freed. That of glibc gives what is free at the end of its heap back
// to the system once that is 128 KiB, and each large message then takes it anew, page by page, which
// costs more than all that is copied into it. Once a large block was freed, it keeps twice as much
// as that had. Where there is no memory for the block, all is as without it.
fn keep_freed(alloc: Global) {
    let _ = Vec::<u8>::with_capacity(alloc, KEPT_FROM_NOW);
}

fn main(rt: HostRuntime) -> ExitCode {
    keep_freed(rt.alloc());
    let Ok(words) = words_of(rt.alloc(), env::args(&rt)) else {
        let _ = eprintln!(rt; "out of memory");
        return exit(5);
    };
    let input = ReadSource::new(rt.stdin());
    let output = WriteSink::new(rt.stdout());
    let mut notes = WriteSink::new(rt.stderr());
    let mut shelf = FileShelf::new(rt);
    let mut wire = TcpWire::new(rt);
    let ran = run(
        &rt,
        rt.alloc(),
        &words,
        &mut shelf,
        input,
        output,
        &mut notes,
        &mut wire,
    );
    exit(ran.status)
}
