//! A program that makes calls of stores of a kind, one a line.
use crate::files::check_all;
use crate::run::run_lines;
use crate::trial::Trial;
use sled_store::Pages;
use std::io::Write;
use std::process::ExitCode;
use std::{env, fs, io};

const HELP: &str = "\
A line is a command. Its words are separated by one space. An empty line and one that begins with # print nothing; a line
that cannot be read prints `bad line N`, counted from 1 among all lines, and does nothing.

In a byte string a byte from ! to ~ other than % is itself, and % with two lower-case hexadecimal digits is that byte. The
word % is the empty string. LO, HI, K and V are byte strings, P and N numbers, and NODE a name that a line gave a node.
- is none. VERSION is the place of a version among those that were met, counted from 0, or `last`; where no version has
that place it is the version of that number. BOUND is [K (K included), (K (K excluded) or .. (none).
LINK is `set K V`, `del K`, `intend P`, `confirm` or `cap`.

repeat N COMMAND                      what the command prints the last of N times

Calls of the store. A refused one prints `refused: ` and the error; one that may not be made now prints `barred`.
new                                   done, with an empty store, of which no version was met
allocate NODE                         page P version PLACE
read P                                page P version PLACE and the node, or none
read P NODE                           the same; the node is given the name
link P VERSION LINK                   changed version PLACE; or found version PLACE, the present one; or found -
replace P VERSION NODE                the same
free P VERSION                        done, or found ..
root K                                root P, or root -
roots                                 roots K P ..
swap K OLD NEW                        done, or found P, or found -, the present root; OLD and NEW are P or -
begin, seal                           done
flush, flush-uncounted                flushed N
set-aside N                           done
in-group, was-recovered               yes or no
mark                                  number N
crash N                               done, with what a crash leaves that keeps N actions
refuse N ..                           done; the calls of these numbers will be refused, and no others
unreadable P                          done
image-page P NODE, image-root K P     done; a page or a root of the next image
image N                               done, with a store of the image, whose mark is N, and of which no version was met
numbers                               page P versions N: the greatest page number that was given, and how many versions were
make-page P N NODE, make-link P N LINK, make-free P, make-root K P    done, or barred; a page, a link, the end of a page, or a
                                      root of the next store that is made so; N is a version, and P of a root may be -
made N N N                            done, with that store: page numbers and versions below the first two count as given, and
                                      the third is the mark; no version was met
hold P, let-go                        done; the page as it is now is held until all are let go

Nodes. CHILD is the merging child, MERGING is `merging` or -.
leaf NODE LO HI NEXT CHILD MERGING K V ..    done
index NODE LO HI NEXT CHILD MERGING K P ..   done
show NODE                             the node, as its line without the name
clone NODE NODE                       done
next NODE P                           done; P may be -
apply NODE LINK                       done
split NODE LEFT RIGHT                 done, or barred with fewer than two entries
receive LEFT RIGHT NODE               done
post NODE K P                         yes or no
should-split NODE, should-merge NODE, can-merge-child NODE    yes or no
len NODE                              number N
prefix NODE                           prefix K, the longest beginning that all keys have
rests NODE                            rests K V .., or K P ..: what each key has behind it
get NODE K                            value V, or value -
pointer NODE BOUND                    first P, or later P, or none
pointer-before NODE P                 pointer P, or none
successor NODE BOUND, predecessor NODE BOUND    pair K V, or none
within NODE BOUND BOUND               pairs K V .., those within both bounds; with -back behind the word from the back
up-to NODE BOUND                      number N of K V ..: how many pairs are within an upper bound, and all pairs

Keys of several parts. PART is # and a number, or a byte string, in which a # in front is written %23. SHAPE has a letter for each
part, n for a number and t for a byte string; it is % where there is none.
spell PART ..                         key K
parts SHAPE K                         parts PART .., or none

Values, separated by a comma and a space. Each of them prints a line: its text or its name, and for each of the values `=` where
it equals a copy of that one, < or > where there is an order, and else /. OLD and NEW are byte strings or -. An error is a
number from 1 to 8, of which 1 has a name K behind it. TREE is the database's name, the tree's own and its number, `K K N`. CALL
is `get K`, `insert K V`, `remove K`, `cas K OLD NEW`, `merge K V`, `scan BOUND BOUND` or `scan-back BOUND BOUND`. WHOLE is
`flush`, `pop-min TREE`, `pop-max TREE`, `clear TREE`, `group TREE K NEW ..`, `tree K`, `drop K`, `id`, `import TYPE NAME K V`,
`watch TREE K`, `next N` or `unwatch N`.
strings K, ..
events K NEW, ..                      an insert, or a removal where NEW is -
conflicts OLD NEW, ..                 why a value was not swapped
errors N, ..
calls CALL, ..
wholes WHOLE, ..
trees TREE, ..
";

// Prints what lines print. The first that asks for what the stores do not have is printed.
fn run_text<P: Pages, T: Trial<P>>(rt: &HostRuntime, trial: &T, text: &str) -> io::Result<()> {
    let ran = run_lines(rt.alloc(), trial, text);
    let done = match ran.printed.text() {
        Some(text) => io::writer(rt).write_all(text),
        None => Err(io::Error::from(io::ErrorKind::OutOfMemory)),
    };
    if let Some(line) = ran.lacked {
        let _ = eprintln!(rt; "the store has nothing for `{line}`");
    }
    drop(ran);
    done
}

fn run_files<P: Pages, T: Trial<P>>(
    rt: &HostRuntime,
    trial: &T,
    files: &[String],
) -> io::Result<()> {
    for file in files {
        let text = fs::read_to_string(rt, file.as_str())?;
        run_text(rt, trial, text.as_str())?;
    }
    Ok(())
}

fn run_input<P: Pages, T: Trial<P>>(rt: &HostRuntime, trial: &T) -> io::Result<()> {
    let text = io::read_to_string(rt.alloc(), rt.reader())?;
    run_text(rt, trial, text.as_str())
}

// Whether no file printed something else than it should.
fn run_words<P: Pages, T: Trial<P>>(
    rt: &HostRuntime,
    trial: &T,
    words: &[String],
) -> io::Result<bool> {
    match words {
        [] => run_input(rt, trial)?,
        [first, names @ ..] if first.as_str() == "check" => {
            return check_all(rt, trial, names, &mut io::writer(rt));
        }
        [first, ..] if first.as_str() == "help" => rt.print(HELP)?,
        files => run_files(rt, trial, files)?,
    }
    Ok(true)
}

/// The words that a program was called with, behind its name.
pub fn words_of(rt: &HostRuntime) -> io::Result<Vec<String>> {
    Ok(env::args(rt)?.skip(1).collect(rt.alloc())?)
}

/// How a program ends: 1 if a file printed something else than it should, 2 if a read or a write failed or there was no memory, which is
/// printed.
pub fn ended(rt: &HostRuntime, passed: io::Result<bool>) -> ExitCode {
    match passed {
        Ok(true) => ExitCode::SUCCESS,
        Ok(false) => ExitCode::from(1),
        Err(error) => {
            let _ = eprintln!(rt; "{error}");
            ExitCode::from(2)
        }
    }
}

/// A whole program. With the words `check NAME ..` it runs the files NAME.lines of the folder that it runs in, each from an empty store. It
/// compares what they print with the files NAME.expected, but for lines that ask for what the stores do not have. With the names of files
/// it prints what they print, and with no word what standard input does. `help` prints what the lines are.
pub fn exercise<P: Pages, T: Trial<P>>(rt: &HostRuntime, trial: &T) -> ExitCode {
    match words_of(rt) {
        Ok(words) => {
            let passed = run_words(rt, trial, words.as_slice());
            drop(words);
            ended(rt, passed)
        }
        Err(error) => ended(rt, Err(error)),
    }
}
