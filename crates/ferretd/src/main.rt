//! Service: the program, which serves its standard streams as one connection.
#![tactic(auto)]

ghost use Rattle.std.specs.Prelude.{◌≡◌, ◌≢◌};
ghost use Rattle.std.specs.IoError.{error_kind};

mod real_link;
mod real_world;

use doc_server::ferret;
use real_world::RealWorld;
use std::env;
use std::io::{self, ErrorKind};
use std::process::ExitCode;

fn main(rt: HostRuntime) -> ExitCode {
    ExitCode::from(match words(rt) {
        Ok(words) => {
            let mut world = RealWorld::new(rt.stdin(), rt.stdout(), rt);
            ferret(rt.alloc(), &words, &mut world).status
        }
        Err(error) => status(&error),
    })
}

/// The words after the program's name.
fn words(rt: HostRuntime) -> io::Result<Vec<String>> {
    let mut words = Vec::new(rt.alloc());
    for word in env::args(&rt)?.skip(1) {
        words.push(word)?;
    }
    Ok(words)
}

/// The status where the words could not be had.
fn status(error: &io::Error) -> u8
    ensures memory { error_kind error.now ≡ ErrorKind.OutOfMemory → result ≡ 9 }
    ensures bad { error_kind error.now ≢ ErrorKind.OutOfMemory → result ≡ 1 }
{
    match error.kind() {
        ErrorKind::OutOfMemory => 9,
        // The words are bad: one is no UTF-8.
        _ => 1,
    }
}
