// Motions through whole scenes, and how an independent model's marches end.
use crate::case::Ask;
use anyhow::anyhow;
use gauges::scene_march::march_through;
use joints::joint::Joint;
use march::motion::Motion;
use scene::scene::Scene;
use solids::solid::Solid;
use std::alloc::Global;

// How marches end; how many of them met something.
#[derive(Clone, Copy)]
pub(crate) struct Marches {
    pub(crate) met: u32,
}

// A motion's line: the coordinates of both points, then the margin. Numbers that are not there are 0; the eighth word is
// one too many, whatever it is.
fn read_motion(line: &str) -> anyhow::Result<Motion> {
    let mut numbers = [0; 7];
    let mut words = line.split(' ');
    for (place, word) in numbers.iter_mut().zip(words.by_ref()) {
        *place = word.parse::<i32>()?;
    }
    if words.next().is_some() {
        return Err(anyhow!("a motion has too many numbers"));
    }
    let [ax, ay, az, bx, by, bz, margin] = numbers;
    Motion::new([ax, ay, az], [bx, by, bz], margin).map_err(|_| anyhow!("a motion is outside"))
}

impl Ask for Marches {
    fn answer<S: Solid, J: Joint>(
        &mut self,
        _heap: Global,
        scene: &Scene<'_, S, J>,
        line: &str,
        _wanted: &str,
        text: &mut String,
    ) -> anyhow::Result<()> {
        match march_through(scene, read_motion(line)?) {
            Some(met) => {
                self.met = self.met.saturating_add(1);
                write!(text, "{met}")?;
            }
            None => text.push_str("clear")?,
        }
        Ok(())
    }
}
