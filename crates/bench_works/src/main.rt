//! Repeats a work as often as its words say, so that a clock outside can time it: signatures and checks of HSS, stamps, hash
//! trees with their paths, verifications of a record, and the digests that these are held against.
#![tactic(auto)]

ghost use Rattle.std.specs.Prelude.{◌<◌, ◌≤◌, length};

mod command;
mod digests;
mod fault;
mod signatures;
mod stamps;
mod token;
mod trees;
mod verifications;

use algorithm_policy::{Policy, read_policy};
use command::{Command, Work, read_command};
use digests::{blocks, padded_digests};
use fault::BenchFault;
use hash_kit::{HashAlg, HashValue};
use hash_tree::LevelTree;
use hex::encode;
use lms_sign::from_seed;
use session_text::{VerifyInput, read_verify, write_verdict};
use signatures::{all_verify, last_signature};
use stamps::last_reply;
use std::alloc::{AllocError, Global};
use std::env::Env;
use std::io::{Input, Read, Write};
use std::{env, io};
use token::first_signature;
use trees::{last_path, leaves};
use verifications::{check_repeatedly, judge_repeatedly};

/// The message that is signed.
const MESSAGE: &[u8] = b"evidence";

/// What is printed where the words name no work.
const USAGE: &str =
    "bench_works (blocks | digests | check | sign | stamp | leaves | tree | token | verify) COUNT [TIMES]";

/// The seed of the key that signs: the bytes 00 to 1f.
const SEED: [u8; 32] = [
    0, 1, 2, 3, 4, 5, 6, 7, 8, 9, 10, 11, 12, 13, 14, 15, 16, 17, 18, 19, 20, 21, 22, 23, 24, 25,
    26, 27, 28, 29, 30, 31,
];

/// The words behind the program's name.
fn words_of(rt: &(impl Env + AllocGlobal)) -> io::Result<Vec<String>> {
    let mut words = Vec::new(rt.alloc());
    for word in env::args(rt)?.skip(1) {
        words.push(word)?;
    }
    Ok(words)
}

/// All bytes of the standard input, where the work is done on it.
fn input_of(rt: &(impl Input + AllocGlobal), work: Work) -> io::Result<Vec<u8>> {
    let mut bytes = Vec::new(rt.alloc());
    if work.reads_input() {
        rt.reader().read_to_end(&mut bytes)?;
    }
    Ok(bytes)
}

/// A text as a line.
fn line_of(alloc: Global, text: &str) -> Result<Vec<u8>, AllocError> {
    let mut line = Vec::new(alloc);
    line.extend_from_slice(text.as_bytes())?;
    line.push(b'\n')?;
    Ok(line)
}

/// Bytes in hexadecimal, as a line.
fn hex_line(alloc: Global, bytes: &[u8]) -> Result<Vec<u8>, AllocError> {
    let text = encode(alloc, bytes)?;
    line_of(alloc, text.as_str())
}

/// The public key and the last of so many signatures, in hexadecimal.
fn signed(alloc: Global, count: u32) -> Result<Vec<u8>, BenchFault>
    requires { 0 < count }
{
    let key = from_seed(alloc, &SEED, 2, 5, 3)?;
    let signature = last_signature(alloc, &key, MESSAGE, count)?;
    let public = encode(alloc, key.public().bytes())?;
    let signature = encode(alloc, &signature)?;
    let text = format!(in alloc; "{public} {signature}")?;
    Ok(line_of(alloc, text.as_str())?)
}

/// Whether a signature verified each of so many times.
fn checked(alloc: Global, count: u32) -> Result<Vec<u8>, BenchFault> {
    let key = from_seed(alloc, &SEED, 2, 5, 3)?;
    let signature = key.sign(alloc, 0, MESSAGE)?;
    let verifies = all_verify(&key.public(), MESSAGE, &signature, count);
    let text = format!(in alloc; "{verifies}")?;
    Ok(line_of(alloc, text.as_str())?)
}

/// The last of so many leaves.
fn leaves_line(alloc: Global, count: u32) -> Result<Vec<u8>, AllocError>
    requires { 0 < count }
{
    let leaves = leaves(alloc, count)?;
    hex_line(alloc, leaves.as_slice()[count as usize - 1].bytes())
}

/// Adds a value in hexadecimal.
fn add(alloc: Global, line: &mut String, value: &HashValue) -> Result<(), AllocError> {
    let text = encode(alloc, value.bytes())?;
    line.push_str(text.as_str())
}

/// The root of the tree over so many leaves, and the path of the last of them, after all other paths.
fn tree_line(alloc: Global, count: u32) -> Result<Vec<u8>, AllocError>
    requires { 0 < count }
{
    let tree = LevelTree::build(alloc, HashAlg::Sha256, leaves(alloc, count)?)?;
    let path = last_path(alloc, &tree, count)?;
    let mut line = String::new(alloc);
    add(alloc, &mut line, &tree.root())?;
    for value in path.as_slice() {
        line.push(' ')?;
        add(alloc, &mut line, value)?;
    }
    line_of(alloc, line.as_str())
}

/// Adds a number as a line.
fn add_number(lines: &mut Vec<u8>, number: u32) -> Result<(), AllocError> {
    let line = format!(in *lines.allocator(); "{number}\n")?;
    lines.extend_from_slice(line.as_bytes())
}

/// How often the signature of the first token verified.
fn token_checked(
    alloc: Global,
    input: &VerifyInput<'_>,
    policy: &Policy,
    count: u32,
) -> Result<Vec<u8>, BenchFault> {
    let signed = first_signature(alloc, input.evidence, policy)?;
    let mut lines = Vec::new(alloc);
    add_number(&mut lines, check_repeatedly(&signed, count))?;
    Ok(lines)
}

/// The line of the verdict, and how often it was that the record is valid.
fn judged(
    alloc: Global,
    input: &VerifyInput<'_>,
    policy: &Policy,
    count: u32,
) -> Result<Vec<u8>, BenchFault>
    requires some { 1 ≤ length input.now.documents }
    requires few { length input.now.documents ≤ 64 }
    requires once { 0 < count }
{
    let judged = judge_repeatedly(alloc, input, policy, count)?;
    let mut lines = Vec::new(alloc);
    write_verdict(&mut lines, &judged.verdict)?;
    add_number(&mut lines, judged.valid)?;
    Ok(lines)
}

/// What a work on an input comes to, in lines.
fn of_input(alloc: Global, command: &Command, bytes: &[u8]) -> Result<Vec<u8>, BenchFault>
    requires { 0 < command.now.count }
{
    let input = read_verify(alloc, bytes)?;
    let policy = read_policy(alloc, input.policy)?;
    match command.work {
        Work::Token => token_checked(alloc, &input, &policy, command.count),
        _ => judged(alloc, &input, &policy, command.count),
    }
}

/// What the work comes to, in lines.
fn outcome(alloc: Global, command: &Command, input: &[u8]) -> Result<Vec<u8>, BenchFault>
    requires { 0 < command.now.count }
{
    let count = command.count;
    match command.work {
        Work::Blocks => Ok(hex_line(alloc, &blocks(SEED, count))?),
        Work::Digests => Ok(hex_line(alloc, &padded_digests([0; 32], count))?),
        Work::Check => checked(alloc, count),
        Work::Sign => signed(alloc, count),
        Work::Stamp => Ok(hex_line(alloc, &last_reply(alloc, SEED, count)?)?),
        Work::Leaves => Ok(leaves_line(alloc, count)?),
        Work::Tree => Ok(tree_line(alloc, count)?),
        Work::Token | Work::Verify => of_input(alloc, command, input),
    }
}

/// The same, after it was done as often as the command says.
fn last_outcome(alloc: Global, command: &Command, input: &[u8]) -> Result<Vec<u8>, BenchFault>
    requires { 0 < command.now.count }
{
    for done in 1..command.times {
        outcome(alloc, command, input)?;
    }
    outcome(alloc, command, input)
}

fn main(rt: HostRuntime) -> io::Result<()> {
    let words = words_of(&rt)?;
    let Some(command) = read_command(&words) else {
        println!(rt; "{USAGE}")?;
        return Ok(());
    };
    let input = input_of(&rt, command.work)?;
    match last_outcome(rt.alloc(), &command, &input) {
        Ok(lines) => io::writer(&rt).write_all(&lines)?,
        Err(fault) => println!(rt; "{fault}")?,
    }
    Ok(())
}
