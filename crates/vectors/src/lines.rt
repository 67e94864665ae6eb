// Script lines with their answers, and files written back.
use crate::case::Ask;
use clearance::script::answer;
use joints::joint::Joint;
use records::make::Make;
use scene::scene::Scene;
use solids::solid::Solid;
use std::alloc::Global;
use writer::write::write;

// The answers to the lines of a script, and the file itself; how many files were written back.
#[derive(Clone, Copy)]
pub(crate) struct Lines {
    pub(crate) written: u32,
}

impl Ask for Lines {
    // A line of a script may be empty; its answer never is.
    fn is_line(_line: &str, wanted: &str) -> bool {
        !wanted.is_empty()
    }

    fn answer<S: Solid, J: Joint>(
        &mut self,
        _heap: Global,
        scene: &Scene<'_, S, J>,
        line: &str,
        _wanted: &str,
        text: &mut String,
    ) -> anyhow::Result<()> {
        match answer(scene, line) {
            Ok(answer) => write!(text, "{answer}")?,
            Err(fault) => write!(text, "{fault}")?,
        }
        Ok(())
    }

    // Writes the scene back and compares the bytes with the file's.
    fn file_is_right<M: Make>(
        &mut self,
        heap: Global,
        scene: &Scene<'_, M::Solid, M::Joint>,
        bytes: &[u8],
    ) -> anyhow::Result<bool> {
        self.written = self.written.saturating_add(1);
        let mut out = vec![in heap; 0; bytes.len()]?;
        let _ = write::<M>(scene, out.as_mut_slice());
        Ok(out.as_slice() == bytes)
    }
}
