// Compile, for C.
ghost use Rattle.stack_assembly.specs.Promise.{Compiles};
ghost use Rattle.stack_assembly_c.specs.Boundary.{compilation_of};

/// What compile answers: a number, the value that goes with it, and both counts, which are 0 where the text is refused.
#[derive(Clone, Copy)]
#[repr(C)]
pub struct Compiled {
    pub number: u32,
    pub value: usize,
    pub operator_count: usize,
    pub label_count: usize,
}

/// Compiles a text into lent tables.
#[unsafe(no_mangle)]
pub extern "C" fn stack_assembly_compile(
    text: &[u8],
    operators: &mut [u32],
    labels: &mut [u32],
) -> Compiled
    ensures { Compiles text.now operators.old labels.old (compilation_of result operators.new labels.new) }
{
    match compile::compile(text, operators, labels) {
        Ok(counts) => Compiled {
            number: 0,
            value: counts.operators,
            operator_count: counts.operators,
            label_count: counts.labels,
        },
        Err(error) => Compiled {
            number: error.number(),
            value: error.value(),
            operator_count: 0,
            label_count: 0,
        },
    }
}
