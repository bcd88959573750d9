//! What commands are drawn from.
use ft_base::NoMemory;
use row_text::split_words;
use std::alloc::Global;

/// The commands that may be drawn, and the words in them that are drawn too.
#[derive(Drop)]
pub struct Grammar {
    /// A name, as `$key`, and the words that it may stand for.
    pub names: Vec<Vec<Vec<u8>>>,
    /// The words of a command, some of them names.
    pub commands: Vec<Vec<Vec<u8>>>,
}

/// The grammar of a text. A line that begins with a name, `$` and more, has the words that the name may stand for; each other one
/// is a command. A line that is blank or begins with `#` says nothing.
pub fn read_grammar(alloc: Global, text: &str) -> Result<Grammar, NoMemory> {
    let mut grammar = Grammar {
        names: Vec::new(alloc),
        commands: Vec::new(alloc),
    };
    for line in text.lines() {
        take_line(alloc, line.as_bytes(), &mut grammar)?;
    }
    Ok(grammar)
}

fn take_line(alloc: Global, line: &[u8], grammar: &mut Grammar) -> Result<(), NoMemory> {
    match line.trim_ascii() {
        [] | [b'#', ..] => {}
        [b'$', ..] => grammar.names.push(split_words(alloc, line)?)?,
        _ => grammar.commands.push(split_words(alloc, line)?)?,
    }
    Ok(())
}
