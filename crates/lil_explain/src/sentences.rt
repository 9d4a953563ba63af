//! The sentences. `docs/FAULTS.md` has the same.

/// A row for each fault, with its number: what it means, and what beginners mean where they make it.
static FAULTS: &str = "\
1 This character can't stand here. Quotes are \" and ', \"not equal\" is # or <>, names have letters and digits alone, and ! ? % \\ _ @ $ are no part of the language.
2 The comment that begins here isn't closed. Each (* needs its own *), also within a comment.
3 The text that begins with this quote isn't closed on its line. It ends with the same quote, \" or '.
4 This is no number. 17B is octal, 0FH hexadecimal and 101C a character; before the next word leave a blank.
5 The greatest number is 65535, and the greatest character 377C.
6 A name has at most 64 letters and digits.
10 The text can't go on like this. The mistake is here or shortly before.
11 The name after END must be the one at the beginning, letter for letter.
12 More than 48 statements, parentheses or types lie in one another here. A procedure or a variable for a part helps.
20 Nothing of this name is declared here. Look for a slip in the spelling, or for an import that is missing.
21 This name is declared already in the same block, record or list of parameters.
22 The module that is imported has no such name.
24 This name stands for something else than is needed here, as a variable where a type is. A type's name isn't used as a function: write VAL(INTEGER, c), and not INTEGER(c).
25 EXIT leaves a LOOP, and none is around it. WHILE, REPEAT and FOR aren't left by EXIT.
26 A function returns a value, as in RETURN x; a procedure and a program return none.
27 FOR can't count with this: it needs a whole variable, and no parameter or imported one, of a type that can be counted.
30 This doesn't go with its operands. INTEGER and CARDINAL aren't mixed: write VAL(INTEGER, c). Strings aren't added or compared, and a condition is a BOOLEAN.
31 The value is of another type than the variable or parameter that takes it. ORD(c) is the number of a character, CHR(n) the character of a number, and a text goes into an array of characters that is long enough.
32 This call has too many or too few arguments. WriteCard(n, 4) and WriteInt(n, 4), for example, have two, the number and how many columns it takes.
33 A variable of just this type is needed here, since the procedure changes it.
34 Only a procedure is called as a statement, and only a function in an expression. The value of a function must be used: x := F(2).
35 Only an array has elements.
36 Only a record has fields, and stands after WITH. The field of what a pointer points to is p^.f.
37 Only a pointer is followed by ^, or given to NEW and DISPOSE.
38 The record has no field of this name.
39 The elements of a set are numbers or constants from 0 to 15. There is no SET OF CHAR.
40 A function gives no array and no record. A VAR parameter can take one out.
41 Only a procedure that is declared at the outermost level can be a value.
42 This value stands before an arm of the same CASE already.
43 What this type is made of is known to its own module alone.
50 This constant isn't one of the values that are allowed here.
51 A constant is needed here: a number, a character, or a name that CONST declares.
52 The result of these constants lies outside -32768 to 65535, or the divisor is 0.
53 The first bound of a range can't be above the second.
60 Too much lies in one another here. Give a part of it to a variable first.
61 This takes more than 32000 words, which is all that the variables, or one type, may have.
62 A module has at most 250 procedures.
63 A module imports at most 60 modules beside those of the system.
64 The program is too long: its code has more than 32767 bytes.
65 A text has at most 262144 bytes.
70 The module that is imported has no symbol file in this folder. Compile its definition first, with lilith compile and the name of its .DEF file.
71 This import was compiled with another version of the module that is named: the two numbers are the keys of the versions. Compile the definitions that rest on it again, each behind those that it imports.
72 A module can't import itself, and no module that rests on it.
76 A module of the system has this name. Choose another one, for the file too.
77 The module and the file must have the same name: MODULE Hello stands in Hello.MOD.
78 The file LILITH.BOK of this folder, or a symbol file, isn't as lilith has written it. Take back a copy of it.
79 The folder has 65535 definitions, which is all that LILITH.BOK can hold. Compile in a new folder.
80 This is another kind of text than the command takes: once runs a program, which begins with MODULE and its name, and compile X.DEF takes a text that begins with DEFINITION MODULE.
90 lilith can't run this yet, or has no module of this name.";

/// The sentences on a fault; nothing for a number of no fault.
pub fn of_fault(number: u8) -> &'static str {
    for row in FAULTS.lines() {
        if let Some((first, sentences)) = row.split_once(' ')
            && first.parse() == Ok(number)
        {
            return sentences;
        }
    }
    ""
}

/// What is shown after the line of Usage: an example of each command that is built.
pub const USAGE: &str =
    "For example, lilith once Hello.MOD runs the program in the file Hello.MOD of this folder. lilith compile Stacks.DEF compiles the definition in Stacks.DEF. Nothing else is built yet.";

// What is told of some places and mistakes in particular. Those in small letters stand after a word that may be meant.
pub const AND_OR: &str =
    "Each comparison beside AND and OR needs parentheses: (n > 1) AND (n < 5).";

pub const BECOMES: &str = "A variable gets its value by :=, and = compares.";

pub const BRACES: &str = "Comments stand between (* and *). Braces make sets.";

pub const DECLARATIONS: &str =
    "Imports come first, then CONST, TYPE, VAR and PROCEDURE in any order, and BEGIN after all of them.";

pub const DISK_END: &str =
    "This is byte 26, which ends files on old disks. A file without it is made by tr -d '\\032' <X.MOD >X.NEW";

pub const DIVIDE: &str =
    "Whole numbers are divided by DIV, and MOD gives the rest. Only sets have /.";

pub const ELSE_IF: &str = "ELSE IF needs an END of its own. ELSIF needs none.";

pub const END_OF_TEXT: &str =
    "The text ends here, before it is whole: its last words are END, the module's name and a full stop.";

pub const EQUAL: &str =
    "In a condition, and in CONST and TYPE, stands = and not :=. A variable gets its value after BEGIN.";

pub const FROM_IN_OUT: &str =
    "This is a name of the module InOut. A line FROM InOut IMPORT with the name is missing after that of MODULE.";

pub const FROM_STORAGE: &str =
    "This is a name of the module Storage. A line FROM Storage IMPORT with the name is missing after that of MODULE.";

pub const FROM_SYSTEM: &str =
    "This is a name of the module SYSTEM. A line FROM SYSTEM IMPORT with the name is missing after that of MODULE.";

pub const INCREMENT: &str = "INC(n) adds 1 to n, INC(n, 5) adds 5, and DEC subtracts.";

pub const INDEX: &str = "An element of an array has brackets: a[n] := 1.";

pub const LILITH_LINE: &str =
    "This is byte 30, which ended lines on the Lilith. Lines of today are made by tr '\\036' '\\n' <X.MOD >X.NEW";

pub const LINE_BEFORE: &str = "Look at the end of the line before: is a ; missing?";

pub const MISSING_END: &str =
    "Each IF, CASE, WHILE, FOR, LOOP and WITH has an END of its own. Before this END one is missing.";

pub const NO_REALS: &str = "lilith has no REAL numbers, and nothing that belongs to them.";

pub const OTHER_LETTERS: &str = "small and capital letters differ.";

pub const PROGRAM: &str = "A program begins with MODULE, its name and a semicolon.";

pub const READ_ALONE: &str =
    "Of what reads there is Read alone, which takes one character: there is no ReadCard, ReadInt, ReadString or Done.";

pub const SIXTEEN_BITS: &str =
    "Whole numbers have 16 bits: INTEGER is -32768 to 32767, and CARDINAL 0 to 65535. There are no longer or shorter ones.";

pub const SMALL_LETTERS: &str = "the words of the language are in capitals.";

pub const SMALL_SYSTEM: &str =
    "SYSTEM has ADDRESS, PROCESS, NEWPROCESS and TRANSFER, and no WORD, ADR, SIZE or TSIZE.";

pub const THEN_DO_OF: &str =
    "A word is missing: IF and ELSIF need THEN, WHILE, FOR and WITH need DO, and CASE needs OF.";
