//! The words of the process's command line.

use base::NoMemory;
use std::env;
use std::io::ErrorKind;

/// The words behind the program's name. Where one of them isn't UTF-8 there is one empty word, which no command is.
///
/// What the words are is up to who starts the process: no contract tells of them.
///
/// # Errors
///
/// Where memory for a word is wanted.
pub fn program_words(rt: &HostRuntime) -> Result<Vec<String>, NoMemory> {
    let mut words = Vec::new(rt.alloc());
    match env::args(rt) {
        Ok(mut args) => {
            let _name = args.next();
            for word in args {
                if words.push(word).is_err() {
                    return Err(NoMemory);
                }
            }
        }
        Err(e) if e.kind() == ErrorKind::OutOfMemory => return Err(NoMemory),
        Err(_) => {
            if words.push(String::new(rt.alloc())).is_err() {
                return Err(NoMemory);
            }
        }
    }
    Ok(words)
}
