ghost use Rattle.std.specs.Prelude.{◌≡◌, None, IfOk, Ok, Err};
ghost use Rattle.std.specs.List.{AllByRecursion};
ghost use Rattle.hold_base.specs.Answers.{Answers, IfFault, IfStopFault};
ghost use Rattle.hold_base.specs.NameBytes.{IsName};
ghost use Rattle.hold_vlex.specs.Lexed.{lexed};
ghost use Rattle.hold_vsyntax.specs.Named.{IsNamedModule};
ghost use Rattle.hold_vsyntax.specs.SyntaxTree.{IsTree, IsSyntaxFault};
ghost use Rattle.hold_vsyntax.specs.declared.fault.SyntaxFault.{SyntaxFault as TheFault};
ghost use Rattle.hold_vsyntax.specs.declared.tree.Module.{Module as TheModule};
ghost use Rattle.hold_vsyntax.specs.inner.Reading.{opening_at};
ghost use Rattle.hold_vsyntax.specs.Symbols.{symbols};
ghost use Rattle.hold_vsyntax.specs.Text.{IsModule};
ghost use Rattle.hold_vsyntax.specs.inner.Whole.{IsModuleFault};

use crate::body::body;
use crate::fault::SyntaxFault;
use crate::header::opening;
use crate::passing::{blame_at_front, pass_piece};
use crate::reader::Reader;
use crate::tree::Module;
use hold_base::Stop;
use hold_vlex::{LexFault, Lexer};
use std::alloc::Global;

/// Does nothing. A proof learns from the call that the text of each token is a name.
fn know_names(text: &[u8])
    ensures { AllByRecursion (λ t. IsName t.text) (lexed text.now).tokens }
{
    let _lexer = Lexer::new(text);
}

/// The first lexical fault of the text.
fn lex_fault(text: &[u8]) -> Option<LexFault>
    ensures { result ≡ (lexed text.now).fault }
{
    let mut lexer = Lexer::new(text);
    loop {
        match lexer.next() {
            Ok(Some(_)) => {}
            Ok(None) => return None,
            Err(fault) => return Some(fault),
        }
    }
}

/// The fault of tokens that begin with no piece that opens a module.
fn refused(alloc: Global, reader: &mut Reader<'_>, end: u64) -> Stop<SyntaxFault>
    requires { opening_at (symbols reader.old) ≡ None }
    ensures { IfStopFault result (IsModuleFault reader.old end) }
{
    if reader.peek().is_none() {
        Stop::Fault(SyntaxFault::Syntax(end))
    } else {
        blame_at_front(alloc, reader)
    }
}

/// Reads the module that all of the tokens make.
fn module(alloc: Global, reader: &mut Reader<'_>, end: u64) -> Result<Module, Stop<SyntaxFault>>
    ensures read { IfOk result (IsModule reader.old) }
    ensures refused { IfFault result (IsModuleFault reader.old end) }
{
    let mut ahead = reader.fork();
    match opening(alloc, &mut ahead) {
        Ok((name, header)) => {
            pass_piece(reader);
            let items = body(alloc, reader, end)?;
            Ok(Module {
                name,
                header,
                items,
            })
        }
        Err(Stop::Memory) => Err(Stop::Memory),
        Err(Stop::Fault(_)) => Err(refused(alloc, reader, end)),
    }
}

/// The syntax tree of a text, or the fault for which it has none.
pub fn syntax_tree(alloc: Global, text: &[u8]) -> Result<Module, Stop<SyntaxFault>>
    ensures read { IfOk result (IsTree text.now) }
    ensures refused { IfFault result (IsSyntaxFault text.now) }
    ensures only_read { (m : TheModule) → IsTree text.now m → Answers result (Ok m) }
    ensures only_refused { (fault : TheFault) → IsSyntaxFault text.now fault → Answers result (Err fault) }
    ensures named { IfOk result IsNamedModule }
{
    know_names(text);
    module_of_text(alloc, text)
}

/// Reads the module that the text is.
fn module_of_text(alloc: Global, text: &[u8]) -> Result<Module, Stop<SyntaxFault>>
    ensures read { IfOk result (IsTree text.now) }
    ensures refused { IfFault result (IsSyntaxFault text.now) }
{
    if let Some(fault) = lex_fault(text) {
        return Err(Stop::Fault(SyntaxFault::Lex(fault)));
    }
    let mut reader = Reader::new(text);
    module(alloc, &mut reader, text.len() as u64)
}
