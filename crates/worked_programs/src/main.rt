//! What the compiler makes of a program up to the search: its units with what they read, write and take of a target, their instances
//! and orders at sizes, what is said of sizes and placements, and the integer program of its sizes and placements.
//!
//! With the words SRC TARGET QUESTIONS it prints the units of a source and a target with the answers to questions; with the words
//! `--model SRC TARGET` their integer program, with `--count SRC TARGET` how many variables and rows it has, with `--lp SRC TARGET` the
//! same as a file for other solvers, and with `--search SRC TARGET` what a search of it answers. Without words it compares worked
//! programs with what was worked out apart from the compiler. Of each program NAME the folder has four files: `NAME.p4`, `NAME.toml`,
//! `NAME.txt`, which has the units, and the questions with their answers, and `NAME.model`, which has the integer program. Of these
//! only the questions are taken over, as `questions` says; all other lines are computed, and the whole texts are compared with the
//! files.
#![tactic(auto)]

mod answers;
mod comparing;
mod expressions;
mod instances;
mod locations;
mod lp_lines;
mod model_lines;
mod modelling;
mod program;
mod questions;
mod searching;
mod statements;
mod unit_lines;
mod worked;

use crate::modelling::{Form, modelled};
use crate::program::{NoAnswer, answer};
use crate::worked::{NAMES, compare_named, read};
use elx_io::Lines;
use std::alloc::AllocError;
use std::io::Write;
use std::{env, io};

/// The words after the program's name.
fn words(rt: &HostRuntime) -> io::Result<Vec<String>> {
    let mut all = env::args(rt)?;
    let _ = all.next();
    let words: Result<Vec<String>, AllocError> = all.collect(rt.alloc());
    Ok(words?)
}

/// Prints what is computed.
fn print_lines(rt: &HostRuntime, computed: Result<Lines, NoAnswer>) -> io::Result<()> {
    match computed {
        Ok(lines) => io::writer(rt).write_all(lines.bytes()),
        Err(error) => println!(rt; "{error}"),
    }
}

/// Prints what is computed of a source, a target and questions.
fn print_answer(rt: &HostRuntime, source: &str, target: &str, questions: &str) -> io::Result<()> {
    let source = read(rt, source)?;
    let target = read(rt, target)?;
    let questions = read(rt, questions)?;
    let computed = answer(
        rt.alloc(),
        source.as_str(),
        target.as_str(),
        questions.as_str(),
    );
    print_lines(rt, computed)
}

/// Prints what is computed of the integer program of a source and a target.
fn print_modelled(rt: &HostRuntime, form: Form, source: &str, target: &str) -> io::Result<()> {
    let source = read(rt, source)?;
    let target = read(rt, target)?;
    print_lines(
        rt,
        modelled(rt.alloc(), source.as_str(), target.as_str(), form),
    )
}

/// The form that a word asks for.
fn form_of(word: &str) -> Option<Form> {
    match word {
        "--model" => Some(Form::Model),
        "--count" => Some(Form::Count),
        "--lp" => Some(Form::Lp),
        "--search" => Some(Form::Search),
        _ => None,
    }
}

fn main(rt: HostRuntime) -> io::Result<()> {
    let words = words(&rt)?;
    if let [first, second, third] = words.as_slice() {
        return match form_of(first.as_str()) {
            Some(form) => print_modelled(&rt, form, second.as_str(), third.as_str()),
            None => print_answer(&rt, first.as_str(), second.as_str(), third.as_str()),
        };
    }
    for name in NAMES {
        compare_named(&rt, name)?;
    }
    Ok(())
}
