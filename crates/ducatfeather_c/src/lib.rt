// The C boundary: each function is one of ducatfeather, under the name and with the numbers that include/ducatfeather.h says in C.
#![tactic(auto)]

ghost use Rattle.std.specs.Prelude.{length};
ghost use Rattle.format.specs.Call as call;
ghost use Rattle.index.specs.Call as called;

// Reads the block in a lent blob into lent words.
#[unsafe(no_mangle)]
pub extern "C" fn ducat_read(
    blob: &[u8],
    words: &mut [u32],
    capacities: &[u32],
    answer: &mut [u64],
) -> u32
    ensures { call.AllowedRead blob.now words.old capacities.now answer.old result words.new answer.new }
{
    ducatfeather::ducat_read(blob, words, capacities, answer)
}

// Says what each list needs for the block in a lent blob.
#[unsafe(no_mangle)]
pub extern "C" fn ducat_needs(blob: &[u8], answer: &mut [u64]) -> u32
    ensures { call.AllowedNeeds blob.now answer.old result answer.new }
{
    ducatfeather::ducat_needs(blob, answer)
}

// Finds a provider's lowest template at an offset in a range of list 9.
#[unsafe(no_mangle)]
pub extern "C" fn ducat_template_at(
    words: &[u32],
    capacities: &[u32],
    counts: &[u32],
    provider: u32,
    first: u32,
    count: u32,
    offset: u32,
    answer: &mut [u64],
) -> u32
    ensures { call.AllowedTemplate words.now capacities.now counts.now provider first count offset answer.old result answer.new }
{
    ducatfeather::ducat_template_at(
        words, capacities, counts, provider, first, count, offset, answer,
    )
}

// Gives the GUIDs of the templates of the events with a key, each once.
#[unsafe(no_mangle)]
pub extern "C" fn ducat_templates_for(
    words: &[u32],
    capacities: &[u32],
    counts: &[u32],
    key: &[u32],
    guids: &mut [u32],
    answer: &mut [u64],
) -> u32
    ensures { call.AllowedGuids words.now capacities.now counts.now key.now guids.old answer.old result guids.new answer.new }
{
    ducatfeather::ducat_templates_for(words, capacities, counts, key, guids, answer)
}

// Reads an index back: its numbers, as words.
#[unsafe(no_mangle)]
pub extern "C" fn ducat_index_read(bytes: &[u8], numbers: &mut [u32], answer: &mut [u64]) -> u32
    ensures { called.AllowedCall (called.called_read bytes.now numbers.old (length answer.old)) numbers.old answer.old result numbers.new answer.new }
{
    ducatfeather::ducat_index_read(bytes, numbers, answer)
}

// Writes the index of the lists of a reading.
#[unsafe(no_mangle)]
pub extern "C" fn ducat_index_write(
    words: &[u32],
    capacities: &[u32],
    counts: &[u32],
    bytes: &mut [u8],
    answer: &mut [u64],
) -> u32
    ensures { called.AllowedCall (called.called_write words.now capacities.now counts.now bytes.old (length answer.old)) bytes.old answer.old result bytes.new answer.new }
{
    ducatfeather::ducat_index_write(words, capacities, counts, bytes, answer)
}
