// A case, and what can be asked of the scenes of cases.
use joints::joint::Joint;
use records::make::Make;
use scene::scene::Scene;
use solids::solid::Solid;
use std::alloc::Global;

// A file, and a script for it: a line each, each with a line feed, with what each comes to. A refused file has
// its refusal as the only answer.
#[derive(Clone, Copy)]
pub(crate) struct Case<'a> {
    pub(crate) name: &'a str,
    pub(crate) bytes: &'a [u8],
    pub(crate) script: &'a str,
    pub(crate) wanted: &'a str,
}

// What is asked of scenes. Each kind keeps a count of its own.
pub(crate) trait Ask: Drop {
    // Writes what a line comes to into a text, which is empty before. Where that has more words than what is wanted, one
    // word more than those is enough.
    fn answer<S: Solid, J: Joint>(
        &mut self,
        heap: Global,
        scene: &Scene<'_, S, J>,
        line: &str,
        wanted: &str,
        text: &mut String,
    ) -> anyhow::Result<()>;

    // Whether these are a line and its answer: what stands behind the last line feed is no line.
    fn is_line(line: &str, _wanted: &str) -> bool {
        !line.is_empty()
    }

    // Whether the scene's file is right, where that is asked.
    fn file_is_right<M: Make>(
        &mut self,
        _heap: Global,
        _scene: &Scene<'_, M::Solid, M::Joint>,
        _bytes: &[u8],
    ) -> anyhow::Result<bool> {
        Ok(true)
    }
}
