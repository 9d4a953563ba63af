//! What is shown of a text, by the calls that `once` makes of it.

ghost use Rattle.std.specs.Prelude.{◌<◌, ◌^◌, length};

use crate::instructions::Code;
use crate::names::{show_names, show_types, show_variables};
use crate::page::{Page, shown};
use crate::source::Source;
use crate::tokens::show_tokens;
use crate::walk::show_code;
use lil_base::{FileKind, Memory, Name, Text};
use lil_check_unit::check_program;
use lil_language::Unit;
use lil_lexer::tokens;
use lil_read_unit::read;
use lil_resolved::RModule;
use lil_session::{Volume, VolumeError};
use lil_text::{ReadStop, Token};
use lil_unit::{GenStop, ModuleCode, generate_alone};
use std::alloc::Global;

fn show_module(page: &mut Page, of: &Unit, module: &RModule) -> Result<(), Memory> {
    let alloc = page.alloc();
    let name = shown(alloc, module.name.as_slice())?;
    let words = module.words;
    let line = format!(in alloc; "2. The module {name}, words of its variables: {words}")?;
    page.heading(line.as_str())?;
    show_names(page, of)?;
    show_types(page, module)?;
    show_variables(page, module)
}

/// Shows the characters of the strings of a module, which lie after its variables.
fn show_strings(page: &mut Page, module: &RModule, strings: &[u16]) -> Result<(), Memory> {
    let alloc = page.alloc();
    let mut word = usize::from(module.words);
    for part in strings.chunks(64) {
        let mut text = String::new(alloc);
        for character in part {
            let code = u8::try_from(*character).unwrap_or(0);
            text.push_str(shown(alloc, &[code])?.as_str())?;
        }
        page.line(format!(in alloc; "strings from word {word} on: {text}")?.as_str())?;
        word = word.saturating_add(64);
    }
    Ok(())
}

/// All that is shown of a text.
fn show(
    alloc: Global,
    text: &Text,
    tokens: &[Token],
    of: &Unit,
    module: &RModule,
    made: &ModuleCode,
) -> Result<Page, Memory>
    requires short { length made.now.code < 2 ^ 32 }
{
    let mut page = Page::new(alloc);
    show_tokens(&mut page, tokens)?;
    show_module(&mut page, of, module)?;
    let count = made.code.len();
    page.heading(format!(in alloc; "3. The code: {count} bytes")?.as_str())?;
    let source = Source {
        text: text.as_slice(),
        tokens,
    };
    let code = Code {
        bytes: made.code.as_slice(),
    };
    show_code(&mut page, source, of, code)?;
    show_strings(&mut page, module, made.strings.as_slice())?;
    Ok(page)
}

/// What a step of reading and checking gave; none where it found a fault.
fn known<T: Drop>(of: Result<T, ReadStop>) -> Result<Option<T>, Memory> {
    match of {
        Ok(it) => Ok(Some(it)),
        Err(ReadStop::Fault(_)) => Ok(None),
        Err(ReadStop::Memory) => Err(Memory),
    }
}

/// Generates the code of a unit's module and shows all; nothing where the unit has a fault or too much code.
fn checked(
    alloc: Global,
    name: &Name,
    text: &Text,
    tokens: &[Token],
    of: &Unit,
) -> Result<Option<Page>, Memory> {
    let module = match check_program(alloc, name, of) {
        Ok(module) => module,
        Err(ReadStop::Fault(_)) => return Ok(None),
        Err(ReadStop::Memory) => return Err(Memory),
    };
    match generate_alone(alloc, &module) {
        Ok(made) => Ok(Some(show(alloc, text, tokens, of, &module, &made)?)),
        Err(GenStop::CodeTooLong { bytes: _ }) => Ok(None),
        Err(GenStop::Memory) => Err(Memory),
    }
}

/// All that is shown of the text of the module of this name; nothing where there is no file or the text has a fault.
pub(crate) fn listing<V: Volume>(
    alloc: Global,
    name: &Name,
    volume: &mut V,
) -> Result<Option<Page>, Memory> {
    let file = name.file(alloc, FileKind::Module)?;
    let text = match volume.read(alloc, &file) {
        Ok(Some(text)) => text,
        Ok(None) | Err(VolumeError::Failed) => return Ok(None),
        Err(VolumeError::Memory) => return Err(Memory),
    };
    let Some(of) = known(read(alloc, &text))? else {
        return Ok(None);
    };
    match known(tokens(alloc, &text))? {
        Some(found) => checked(alloc, name, &text, found.as_slice(), &of),
        None => Ok(None),
    }
}
