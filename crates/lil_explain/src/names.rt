//! Names that beginners look for, by where they come from.

use crate::sentences::*;

// Lists of names, with blanks between.

static RESERVED: &str =
    "AND ARRAY BEGIN BY CASE CONST DEFINITION DIV DO ELSE ELSIF END EXIT EXPORT FOR FROM IF IMPLEMENTATION IMPORT IN LOOP MOD MODULE NOT OF OR POINTER PROCEDURE QUALIFIED RECORD REPEAT RETURN SET THEN TO TYPE UNTIL VAR WHILE WITH";

static STANDARD: &str =
    "ABS BITSET BOOLEAN CAP CARDINAL CHAR CHR DEC DISPOSE EXCL FALSE HALT HIGH INC INCL INTEGER MAX MIN NEW NIL ODD ORD PROC TRUE VAL";

static IN_OUT: &str = "EOL Read Write WriteCard WriteHex WriteInt WriteLn WriteOct WriteString";

static STORAGE: &str = "ALLOCATE DEALLOCATE";

static SYSTEM: &str = "ADDRESS NEWPROCESS PROCESS TRANSFER";

static OLD_REAL: &str =
    "REAL LONGREAL FLOAT TRUNC ReadReal WriteReal RealInOut MathLib MathLib0 MathLib1 arctan cos exp ln sin sqrt";

static OLD_LONG: &str = "BYTE LONGCARD LONGINT SHORTCARD SHORTINT";

static OLD_SYSTEM: &str = "ADR IOTRANSFER LISTEN SIZE TSIZE WORD";

static OLD_INPUT: &str =
    "BusyRead CloseInput CloseOutput Done KeyPressed OpenInput OpenOutput ReadAgain ReadCard ReadInt ReadString termCH";

/// The name of a list that a word is but for small and capital letters.
fn like(names: &'static str, word: &[u8]) -> Option<&'static str> {
    let mut names = names.split(' ');
    names.find(|name| name.as_bytes().eq_ignore_ascii_case(word))
}

/// The word of the language that a word is but for small letters.
pub fn reserved_like(word: &[u8]) -> Option<&'static str> {
    like(RESERVED, word).filter(|name| name.as_bytes() != word)
}

/// A name of the language or of a module that a word is but for small and capital letters.
pub fn name_like(word: &[u8]) -> Option<&'static str> {
    for names in [STANDARD, IN_OUT, STORAGE, SYSTEM] {
        if let Some(name) = like(names, word)
            && name.as_bytes() != word
        {
            return Some(name);
        }
    }
    None
}

/// What is told of a name that has to be imported, or that isn't there though Modula-2 or its books have it.
pub fn known(word: &[u8]) -> Option<&'static str> {
    for (names, sentences) in [
        (IN_OUT, FROM_IN_OUT),
        (STORAGE, FROM_STORAGE),
        (SYSTEM, FROM_SYSTEM),
        (OLD_REAL, NO_REALS),
        (OLD_LONG, SIXTEEN_BITS),
        (OLD_SYSTEM, SMALL_SYSTEM),
        (OLD_INPUT, READ_ALONE),
    ] {
        if names.split(' ').any(|name| name.as_bytes() == word) {
            return Some(sentences);
        }
    }
    None
}
