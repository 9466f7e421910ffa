ghost use Rattle.ale_logic.specs.GenerationLaws.{GenerationLaws, HeadedSpans};

use ale_graph::closure_law;
use ale_morphism::visible_laws;

/// What the answers of a generation mean, over words that are sound. Wherever an answer's graph goes, an
/// extension that is sound for it has its root as described and headed by the answer's words; its own graph
/// grows to a solution with these words and the same visible part; and a finished generation over all words has
/// an answer that subsumes each solution, with the same words. Source: semantic-head-driven generation, Shieber,
/// van Noord, Pereira and Moore 1990.
pub fn generation_law()
    ensures { GenerationLaws }
{
    closure_law();
    visible_laws();
}

/// A node that is headed by words spans these words, in every structure: what is generated can be parsed, as no
/// rule has two semantic heads.
pub fn headed_spans_law()
    ensures { HeadedSpans }
{}
