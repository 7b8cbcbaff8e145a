//! Workers that are shells on a script.
use std::alloc::{AllocError, Global};

/// The words that start a shell on a script.
pub fn shell(alloc: Global, script: &str) -> Result<Vec<String>, AllocError> {
    let mut command = Vec::new(alloc);
    for word in ["sh", "-c", script] {
        command.push(String::from_str(alloc, word)?)?;
    }
    Ok(command)
}

/// A worker that obeys, but for one word, at which it does something else.
pub fn worker(alloc: Global, word: &str, instead: &str) -> Result<Vec<String>, AllocError> {
    let script = format!(in alloc;
        "while read line; do set -- $line; \
        if [ $1 = {word} ]; then {instead}; continue; fi; \
        case $1 in worker) start=$4;; go) echo ready;; ping) echo pong;; \
        tick) echo beat $2 $start;; quit) echo gone; exit 0;; esac; done"
    )?;
    shell(alloc, script.as_str())
}
