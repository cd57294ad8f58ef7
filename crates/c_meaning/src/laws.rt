//! Laws of the meaning: empty functions whose contracts state them.

ghost use Rattle.c_meaning.specs.Sorted.{MainGivesInt, SortsHold};
ghost use Rattle.c_meaning.specs.Laws.{AnswersFit, AnswersSuffice, DepthsAgree, OneRun};

/// The number of ticks bounds calls and turns of loops; no other bound has an effect.
pub fn depth_law()
    ensures { DepthsAgree }
{}

/// A run takes just as many answers as it needs, whatever they are.
pub fn answer_law()
    ensures suffice { AnswersSuffice }
    ensures fit { AnswersFit }
{}

/// A program, its tokens, its input, the number of steps and the ranges have at most one run.
pub fn one_run()
    ensures { OneRun }
{}

/// In a well-formed program each expression gives values of its sort alone, and `main` gives an `int`.
pub fn sort_law()
    ensures expressions { SortsHold }
    ensures main { MainGivesInt }
{}
