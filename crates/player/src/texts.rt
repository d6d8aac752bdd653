//! Whole runs of a script and of a certificate, answered on standard output.
use crate::play::say_refused;
use crate::refusing::refuse;
use hlc_certificate::run_check;
use hlc_script::run_script;
use hlc_text::watched::Watched;
use std::io;
use std::io::{ErrorKind, Read};

/// Returns one block, and then fails: a script that can't be read to its end.
#[derive(Drop)]
pub(crate) struct GivesOnce {
    pub(crate) returned: bool,
}

impl Read for GivesOnce {
    fn read(&mut self, buf: &mut [u8]) -> io::Result<usize> {
        if self.returned {
            return Err(io::Error::from(ErrorKind::Other));
        }
        self.returned = true;
        buf.fill(b'x');
        Ok(buf.len())
    }
}

/// Answers a script, or else a certificate, while the request of this number is refused. Prints the exit status, and
/// whether a request was refused.
pub(crate) fn answer<I: Read + Drop>(rt: &HostRuntime, number: u64, text: I, is_script: bool) {
    let mut text = Watched::new(text);
    let mut writer = Watched::new(rt.stdout());
    refuse(rt, number);
    let status = if is_script {
        run_script(rt.alloc(), &mut text, &mut writer).status()
    } else {
        run_check(rt.alloc(), &mut text, &mut writer).status()
    };
    let _ = println!(rt; "status {status}");
    say_refused(rt);
}
