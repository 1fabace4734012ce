//! The entries of docs/FAULTS.md and docs/NOTES.md by their words. `make pages` makes this file from those pages.
ghost use Rattle.std.specs.Prelude.{◌≡◌, IfSome, is_some};
ghost use Rattle.hints.specs.Entries.{IsEntryOf};
ghost use Rattle.hints.specs.Listed as listed;
ghost use Rattle.hints.specs.Listed.{has_entry};

/// The entry of the fault whose number is written so, or of the kind of notes that has this name. It begins with the word.
pub fn entry_of<'p>(word: &str) -> Option<&'p str>
    ensures begins { IfSome result (λ entry. IsEntryOf word.now entry.now) }
    ensures listed { is_some result ≡ has_entry word.now }
{
    if let Some(entry) = entry_of_inventories(word) {
        return Some(entry);
    }
    if let Some(entry) = entry_of_playbooks(word) {
        return Some(entry);
    }
    if let Some(entry) = entry_of_commands(word) {
        return Some(entry);
    }
    entry_of_kinds(word)
}

/// The entries of faults of inventories and fleets.
#[tactic(auto, unfolding(crate::specs::Listed::is_of_inventories))]
fn entry_of_inventories<'p>(word: &str) -> Option<&'p str>
    ensures begins { IfSome result (λ entry. IsEntryOf word.now entry.now) }
    ensures listed { is_some result ≡ listed.is_of_inventories word.now }
{
    match word {
        "101" => Some(
            "101 BadName: a group or host has an invalid name\n\n```\n$ echo '{\"all\": {\"hosts\": {\"www[01:50]\": null}}}' | rollout\nrollout: 101 BadName name=www[01:50]\n```\n\nA name is 1 to 255 ASCII letters, digits, `.`, `-` and `_`. A letter beyond ASCII appears as two or\nmore `?`. Write ranges out, or [let Ansible do it](FROM_ANSIBLE.md#converting-an-inventory).\n",
        ),
        "102" => Some(
            "102 TwicePlaced: two groups have the same name\n\n```\n$ echo '{\"eu\": {\"children\": {\"web\": null}}, \"us\": {\"children\": {\"web\": null}}}' | rollout\nrollout: 102 TwicePlaced group=5\n```\n\n`group=` is the position of the second group, from 1; groups come before their children, siblings by\nname: here `all`, `eu`, `web`, `us`, `web`. Unlike in Ansible, a group has only one parent. Use two names,\nsuch as `web-eu` and `web-us`. Or keep the group below a `max_down`, with the hosts of both, and list these\nhosts in the other parent too. A *host* can be in several groups.\n",
        ),
        "103" => Some(
            "103 TooDeep: more than 32 levels of groups\n\n```\n$ { printf '{\"all\":'; printf '{\"children\":{\"g%s\":' $(seq 32); printf null; printf '%.0s}}' $(seq 32); echo '}'; } | rollout\nrollout: 103 TooDeep\n```\n\n`all` is the first level, and counts as a group. A host counts once for each group that lists it. Remove\ngroups without a limit, or split the inventory into parts that share no limited group.\n",
        ),
        "104" => Some(
            "104 TooMany: more than 1,024 groups, or 16,384 host entries\n\n```\n$ { printf '{\"all\":'; printf '{\"children\":{\"g%s\":' $(seq 32); printf null; printf '%.0s}}' $(seq 32); echo '}'; } | rollout\nrollout: 103 TooDeep\n```\n\n`all` is the first level, and counts as a group. A host counts once for each group that lists it. Remove\ngroups without a limit, or split the inventory into parts that share no limited group.\n",
        ),
        "201" => Some(
            "201 NotJson: the inventory is not valid JSON\n\n```\n$ head -c 100 examples/two-racks.json | rollout\nrollout: 201 NotJson\n```\n\nThe file is truncated or not JSON. JSON is UTF-8 without a byte order mark, comments, or a comma after the\nlast value. Values nest up to 127 deep, and numbers fit a float. `python3 -m json.tool FILE` shows the\nplace. If a program wrote the file, check whether it failed. `sed -i '1s/^\\xEF\\xBB\\xBF//' FILE` removes a\nbyte order mark. Convert YAML and INI [with Ansible](FROM_ANSIBLE.md#converting-an-inventory).\n",
        ),
        "202" => Some(
            "202 BadShape: a value is neither an object nor null\n\n```\n$ echo '{\"web\": {\"hosts\": [\"web1\", \"web2\"]}}' | rollout\nrollout: 202 BadShape at=web/hosts\n```\n\nThe value at this path must be an object or null; an empty path is the whole file. Hosts are the keys of an\nobject: `{\"web1\": null, \"web2\": null}`. Call `ansible-inventory --list` [with\n`--yaml`](FROM_ANSIBLE.md#converting-an-inventory): without it, hosts are lists.\n",
        ),
        "203" => Some(
            "203 UnknownKey: a group has an unknown key\n\n```\n$ echo '{\"web\": {\"host\": {\"web1\": null}}}' | rollout\nrollout: 203 UnknownKey at=web/host\n```\n\nA group's only keys are `hosts`, `children` and `vars`. Variables go below `vars`.\n",
        ),
        "204" => Some(
            "204 BadLimit: `max_down` is not a valid limit\n\n```\n$ echo '{\"web\": {\"vars\": {\"max_down\": \"2\"}}}' | rollout\nrollout: 204 BadLimit at=web/vars/max_down\n```\n\nA limit is an unquoted integer from 0 to 65,535, or a percentage from `\"0%\"` to `\"100%\"`. If the group has\nno limit, omit `max_down`.\n",
        ),
        "205" => Some(
            "205 BadDown: `down` is neither `true` nor `false`\n\n```\n$ echo '{\"web\": {\"hosts\": {\"web1\": {\"down\": \"true\"}}}}' | rollout\nrollout: 205 BadDown at=web/hosts/web1/down\n```\n\nWrite `true` or `false` without quotes; `yq` turns `yes` into a string. In an INI inventory of Ansible,\nwrite `down=True`, because `down=true` is a string there.\n",
        ),
        "301" => Some(
            "301 NotNested: two limited groups share a host, and neither contains the other\n\n```\n$ rollout limits examples/crossing-racks.json\nrollout: 301 NotNested host=web-1 first=rack9 second=row1\n```\n\nThe host is in both groups, both have a limit, and neither contains the other.\n\n- If the host is in one of them by mistake, remove it there.\n- If one group has all hosts of the other, nest the other below it\n  ([racks and services](FROM_ANSIBLE.md#racks-and-services)).\n- Otherwise keep `max_down` on one kind of group, such as racks, for every pair that `lint` reports. Remove\n  it from the other kind, or nest parts of that kind below the first.\n",
        ),
        "302" => Some(
            "302 StartOver: a group has more hosts down than its limit before the run starts\n\n```\n$ echo '{\"web\": {\"vars\": {\"max_down\": 1}, \"hosts\": {\"a\": {\"down\": true}, \"b\": {\"down\": true}}}}' | rollout\nrollout: 302 StartOver group=web down=2 limit=1\n```\n\nBring hosts up and remove their `\"down\": true`, or raise the limit above `down=`: an equal one leaves no\nroom. If the limit is a percentage, `limit=` is the number that it makes.\n",
        ),
        "303" => Some(
            "303 TooManyHosts: more than 4,096 hosts\n\n```\n$ { printf '{\"all\": {\"hosts\": {\"h0\": null'; printf ', \"h%s\": null' $(seq 4096); echo '}}}'; } | rollout\nrollout: 303 TooManyHosts\n```\n\nSplit the inventory, without cutting a limited group in two.\n",
        ),
        "304" => Some(
            "304 NoSuchName: a name in `hosts`, `--failing` or `--up` is neither a group nor a host\n\n```\n$ echo '[{\"hosts\": \"web:db\", \"tasks\": [{\"command\": \"true\"}]}]' | rollout plan examples/two-racks.json /dev/stdin\nrollout: 304 NoSuchName name=db\n```\n\nNames are checked in `hosts` first, then in `--up`, then in `--failing`. Patterns have no `&`, `!`, `*`,\nindex or range: join names by `:` or `,`.\n",
        ),
        _ => None,
    }
}

/// The entries of faults of playbooks.
#[tactic(auto, unfolding(crate::specs::Listed::is_of_playbooks))]
fn entry_of_playbooks<'p>(word: &str) -> Option<&'p str>
    ensures begins { IfSome result (λ entry. IsEntryOf word.now entry.now) }
    ensures listed { is_some result ≡ listed.is_of_playbooks word.now }
{
    match word {
        "501" => Some(
            "501 BadToken: a condition has an invalid token\n\n```\n$ echo '[{\"hosts\": \"web\", \"tasks\": [{\"command\": \"true\", \"when\": \"tier = 1\"}]}]' | rollout plan examples/two-racks.json /dev/stdin\nrollout: 501 BadToken step=1 key=when at=5\n$ echo '[{\"hosts\": \"web\", \"tasks\": [{\"command\": \"true\", \"failed_when\": \"r.rc == 3 and\"}]}]' | rollout plan examples/two-racks.json /dev/stdin\nrollout: 502 Unexpected step=1 key=failed_when at=13\n```\n\n`at=` is the byte at which the condition goes wrong, from 0; its length, if it ends too early. There are no\nbraces, filters, lists, `<`, `>` or arithmetic ([grammar](FORMATS.md#conditions)). Write the bare name, or\ncomparisons joined by `or`. For anything else let the program of an earlier step decide, with\n`\"register\": \"r\"` and `\"failed_when\": false`, then test `r.rc == 0`\n([examples](FROM_ANSIBLE.md#you-wrote-write)).\n",
        ),
        "502" => Some(
            "502 Unexpected: a condition has a misplaced token, or ends too early\n\n```\n$ echo '[{\"hosts\": \"web\", \"tasks\": [{\"command\": \"true\", \"when\": \"tier = 1\"}]}]' | rollout plan examples/two-racks.json /dev/stdin\nrollout: 501 BadToken step=1 key=when at=5\n$ echo '[{\"hosts\": \"web\", \"tasks\": [{\"command\": \"true\", \"failed_when\": \"r.rc == 3 and\"}]}]' | rollout plan examples/two-racks.json /dev/stdin\nrollout: 502 Unexpected step=1 key=failed_when at=13\n```\n\n`at=` is the byte at which the condition goes wrong, from 0; its length, if it ends too early. There are no\nbraces, filters, lists, `<`, `>` or arithmetic ([grammar](FORMATS.md#conditions)). Write the bare name, or\ncomparisons joined by `or`. For anything else let the program of an earlier step decide, with\n`\"register\": \"r\"` and `\"failed_when\": false`, then test `r.rc == 0`\n([examples](FROM_ANSIBLE.md#you-wrote-write)).\n",
        ),
        "503" => Some(
            "503 TooDeep: a condition nests more than 32 parentheses and `not`\n\n```\n$ printf '[{\"hosts\": \"web\", \"tasks\": [{\"command\": \"true\", \"when\": \"%strue\"}]}]' \"$(printf 'not %.0s' $(seq 33))\" | rollout plan examples/two-racks.json /dev/stdin\nrollout: 503 TooDeep step=1 key=when at=128\n```\n\nOnly parentheses and `not` count as nesting. A list under `when` is joined by `and`, and each of its\nstrings can have 4,096 bytes.\n",
        ),
        "504" => Some(
            "504 TooLong: a condition is longer than 4,096 bytes\n\n```\n$ printf '[{\"hosts\": \"web\", \"tasks\": [{\"command\": \"true\", \"when\": \"%strue\"}]}]' \"$(printf 'not %.0s' $(seq 33))\" | rollout plan examples/two-racks.json /dev/stdin\nrollout: 503 TooDeep step=1 key=when at=128\n```\n\nOnly parentheses and `not` count as nesting. A list under `when` is joined by `and`, and each of its\nstrings can have 4,096 bytes.\n",
        ),
        "602" => Some(
            "602 BadBraces: `{{` without a name and `}}` after it, or `{%` or `{#`\n\n```\n$ echo '[{\"hosts\": \"web\", \"tasks\": [{\"command\": \"echo {{ name | upper }}\"}]}]' | rollout plan examples/two-racks.json /dev/stdin\nrollout: 602 BadBraces step=1\n```\n\nAn argument can contain only the placeholders `{{ name }}` and `{{ name.field }}`. Anything else after\n`{{`, and any `{%` or `{#`, is rejected. This includes shell scripts: instead of `${#x}`, call a script\nof your own.\n",
        ),
        "701" => Some(
            "701 NotJson: the playbook is not valid JSON\n\n```\n$ echo '- hosts: web' | rollout plan examples/two-racks.json /dev/stdin\nrollout: 701 NotJson\n```\n\nAs 201, for the playbook. `yq .` converts a playbook from YAML to JSON.\n",
        ),
        "702" => Some(
            "702 BadShape: a value has the wrong type, or a key is missing\n\n```\n$ echo '[{\"hosts\": \"web\", \"tasks\": [{\"command\": \"echo it'\"'\"'s\"}]}]' | rollout plan examples/two-racks.json /dev/stdin\nrollout: 702 BadShape at=0/tasks/0/command\n```\n\nA command in one string can't have quotes or backslashes: write `{\"argv\": [\"echo\", \"it's\"]}`. A missing key\nis reported at its object: `at=0` lacks `hosts` or `tasks`, `at=0/tasks/0` lacks `command` or has two,\n`at=0/handlers/0` lacks `name`. If the path is empty, the two files might be in the wrong order.\n",
        ),
        "703" => Some(
            "703 UnknownKey: a play or a step has an unknown key\n\n```\n$ echo '[{\"hosts\": \"web\", \"tasks\": [{\"shell\": \"true\"}]}]' | rollout plan examples/two-racks.json /dev/stdin\nrollout: 703 UnknownKey at=0/tasks/0/shell\n```\n\nUnknown keys are rejected, because without them the play would do something else. `rollout lint` prints\nwhat to write instead, and so does [this table](FROM_ANSIBLE.md#you-wrote-write).\n[FORMATS.md](FORMATS.md#keys-of-a-play) has all known keys.\n",
        ),
        "704" => Some(
            "704 NoSuchHandler: a task notifies a handler that doesn't exist\n\n```\n$ echo '[{\"hosts\": \"web\", \"tasks\": [{\"command\": \"true\", \"notify\": \"restart\"}], \"handlers\": []}]' | rollout plan examples/two-racks.json /dev/stdin\nrollout: 704 NoSuchHandler name=restart\n$ echo '[{\"hosts\": \"web\", \"tasks\": [{\"command\": \"true\"}], \"handlers\": [{\"name\": \"reload\", \"command\": \"true\"}, {\"name\": \"reload\", \"command\": \"true\"}]}]' | rollout plan examples/two-racks.json /dev/stdin\nrollout: 705 TwiceHandler name=reload\n```\n\nA task notifies handlers of its own play by exact name, not by `listen`. Of two handlers with one name\nAnsible uses the last: keep that one, or rename one.\n",
        ),
        "705" => Some(
            "705 TwiceHandler: two handlers have the same name\n\n```\n$ echo '[{\"hosts\": \"web\", \"tasks\": [{\"command\": \"true\", \"notify\": \"restart\"}], \"handlers\": []}]' | rollout plan examples/two-racks.json /dev/stdin\nrollout: 704 NoSuchHandler name=restart\n$ echo '[{\"hosts\": \"web\", \"tasks\": [{\"command\": \"true\"}], \"handlers\": [{\"name\": \"reload\", \"command\": \"true\"}, {\"name\": \"reload\", \"command\": \"true\"}]}]' | rollout plan examples/two-racks.json /dev/stdin\nrollout: 705 TwiceHandler name=reload\n```\n\nA task notifies handlers of its own play by exact name, not by `listen`. Of two handlers with one name\nAnsible uses the last: keep that one, or rename one.\n",
        ),
        "706" => Some(
            "706 BadSerial: `serial` is not a valid batch size\n\n```\n$ echo '[{\"hosts\": \"web\", \"serial\": [1, -1], \"tasks\": [{\"command\": \"true\"}]}]' | rollout plan examples/two-racks.json /dev/stdin\nrollout: 706 BadSerial at=0/serial/1\n$ echo '[{\"hosts\": \"web\", \"max_fail_percentage\": 150, \"tasks\": [{\"command\": \"true\"}]}]' | rollout plan examples/two-racks.json /dev/stdin\nrollout: 707 BadPercent at=0/max_fail_percentage\n```\n\nA batch size is an integer from 0 to 65,535, also as a string of up to five digits, or a percentage from\n`\"0%\"` to `\"100%\"`. A list has 1 to 64 sizes.\n",
        ),
        "707" => Some(
            "707 BadPercent: `max_fail_percentage` is not an integer from 0 to 100\n\n```\n$ echo '[{\"hosts\": \"web\", \"serial\": [1, -1], \"tasks\": [{\"command\": \"true\"}]}]' | rollout plan examples/two-racks.json /dev/stdin\nrollout: 706 BadSerial at=0/serial/1\n$ echo '[{\"hosts\": \"web\", \"max_fail_percentage\": 150, \"tasks\": [{\"command\": \"true\"}]}]' | rollout plan examples/two-racks.json /dev/stdin\nrollout: 707 BadPercent at=0/max_fail_percentage\n```\n\nA batch size is an integer from 0 to 65,535, also as a string of up to five digits, or a percentage from\n`\"0%\"` to `\"100%\"`. A list has 1 to 64 sizes.\n",
        ),
        "708" => Some(
            "708 ManyPlays: more than 16 plays\n\n```\n$ { printf '[null'; printf ', null%.0s' $(seq 16); echo ']'; } | rollout plan examples/two-racks.json /dev/stdin\nrollout: 708 ManyPlays\n```\n\nTasks and handlers count together. Move the rest to a second file and run it afterward, or combine several\nsteps in one script.\n",
        ),
        "709" => Some(
            "709 TooManySteps: a play has more than 256 steps\n\n```\n$ { printf '[null'; printf ', null%.0s' $(seq 16); echo ']'; } | rollout plan examples/two-racks.json /dev/stdin\nrollout: 708 ManyPlays\n```\n\nTasks and handlers count together. Move the rest to a second file and run it afterward, or combine several\nsteps in one script.\n",
        ),
        _ => None,
    }
}

/// The entries of faults of commands.
#[tactic(auto, unfolding(crate::specs::Listed::is_of_commands))]
fn entry_of_commands<'p>(word: &str) -> Option<&'p str>
    ensures begins { IfSome result (λ entry. IsEntryOf word.now entry.now) }
    ensures listed { is_some result ≡ listed.is_of_commands word.now }
{
    match word {
        "822" => Some(
            "822 Mixed: the workers and the log of a run disagree\n\nThe run was interrupted: its workers stopped answering before each host had reported its step. This is a\nbug in `rollout`, not in your files: please report it. The recap ends with `end fault`. Its `running` hosts\nare down and might be partly updated. Check and repair them, then\n[resume](DURING_AND_AFTER.md#resuming).\n",
        ),
        "901" => Some(
            "901 BadLine: the command line is invalid\n\n```\n$ rollout jump\nrollout: 901 BadLine\nerror: unrecognized subcommand 'jump'\n\nUsage: rollout <COMMAND>\n\nFor more information, try '--help'.\n```\n\nThe next lines explain the error. Their wording can change, and control characters appear as `?`.\n`rollout help COMMAND` lists the options; [FORMATS.md](FORMATS.md) has those that can't be combined.\n",
        ),
        "902" => Some(
            "902 File: a file can't be read, or a lock file can't be locked\n\n```\n$ rollout limits nosuch.json\nrollout: 902 File name=nosuch.json\n```\n\nThe file can't be opened or read, or is a directory; or a `--lock-file` can't be locked. `-` is standard\ninput: the inventory, if there is no command, or the commands of a rehearsal.\n",
        ),
        "903" => Some(
            "903 InputTooLarge: a file, or a rehearsal's commands, exceed 16,777,216 bytes\n\n```\n$ head -c 16777217 /dev/zero | rollout\nrollout: 903 InputTooLarge\n```\n\nCheck whether the input ever ends. Otherwise remove variables that no step reads, or split the file.\n",
        ),
        "904" => Some(
            "904 Write: the output can't be written\n\n```\n$ rollout run -v examples/two-racks.json examples/roll-anywhere.json 2>&1 >/dev/full | grep -A 2 '^rollout:'\nrollout: 904 Write written=0\nweb2 ok=1 changed=1 failed=1 skipped=0 ignored=0 state=failed\nweb5 ok=0 changed=0 failed=0 skipped=0 ignored=0 state=off\n```\n\nThe output is full or closed. `written=` counts the bytes that were written. A run has still run its\nprograms; without `--quiet`, the recap lines of the hosts that are down follow on standard error.\n",
        ),
        "906" => Some(
            "906 LongLine: a command of a rehearsal is longer than 65,536 bytes\n\n```\n$ head -c 65537 /dev/zero | rollout rehearse examples/two-racks.json examples/restart-web.json\nrollout: 906 LongLine\n```\n\nThe lines before it were answered. Instead of one `advance` with so many names, mark each host with `fail`,\nthen enter `next 1`.\n",
        ),
        "907" => Some(
            "907 Unexpected: a number differs from `--expect`\n\n```\n$ rollout limits examples/two-racks.json --expect hosts=5,limited=4\nweb members=5 down=1 limit=2 room=1\nrack1 members=3 down=0 limit=1 room=1\nrack2 members=2 down=1 limit=1 room=0\nhosts=5 limited=3\nrollout: 907 Unexpected name=limited expected=4 found=3\n```\n\nThis is the first part of `--expect` that doesn't hold; for `<=`, `most=` replaces `expected=`.\n`found=none` means that no group has this name, that it has no limit, or that the plan is blocked. Find out\nwhat is wrong: a limit that was lost on the way ([`--export`](FROM_ANSIBLE.md#converting-an-inventory)),\nhosts that are new, or the expectation.\n",
        ),
        "908" => Some(
            "908 BadPlan: a line of the checked plan is invalid\n\n```\n$ rollout plan examples/two-racks.json examples/restart-web.json --forecast | rollout check examples/two-racks.json examples/restart-web.json /dev/stdin\nrollout: 908 BadPlan line=1\n```\n\nThis line, from 1, has a word that can't be a host's name: here `1:`. A plan has a line per batch, with\nspaces between the names; line N can start with `batch N:`. Commas, comments and the output of `--forecast`,\n`--groups` or a blocked plan are rejected. The inventory and the playbook are valid.\n",
        ),
        "909" => Some(
            "909 BadList: the list of `--expect` or `--allow` is invalid\n\n```\n$ rollout limits examples/two-racks.json --expect hosts=5,limited\nrollout: 909 BadList name=hosts=5,limited\n```\n\nThe list of `--expect` has parts `NAME=NUMBER` or `NAME<=NUMBER`, comma-separated. A number is at most\n65,535, with no space next to the sign. In a shell, quote `<=`: `--expect 'batches<=7'`. The list of\n`--allow` has [lint rules](NOTES.md), as their warnings spell them: `shell-word`. No file was read.\n",
        ),
        "910" => Some(
            "910 JournalThere: the file for the journal already exists\n\n```\n$ rollout run --journal /dev/null examples/two-racks.json examples/roll-anywhere.json\nrollout: 910 JournalThere\n```\n\nA run creates its [journal](FORMATS.md#the-journal), so that it never overwrites that of another run. Name\na new file, or move the existing one away. Nothing was read or started.\n",
        ),
        "911" => Some(
            "911 JournalWrite: the journal can't be written\n\n```\n$ rollout run --quiet --journal /none/journal examples/two-racks.json examples/roll-anywhere.json 2>&1 | tail -n 2\nend fault\nrollout: 911 JournalWrite\n```\n\nThe file can't be created, written or synced (a full disk, a quota), its directory can't be read, or memory\nran out. No batch opens without its line: the run ends at that boundary, and no host is partly updated. The\nrecap is right, and the journal lacks what it couldn't store: only the last lines, if the recap has another\nend than `fault`. If a run with `--resume` or `--up` prints no recap, nothing was started.\n",
        ),
        "912" => Some(
            "912 BadJournal: a line of the journal is invalid\n\n```\n$ echo 'no journal' | rollout state examples/two-racks.json /dev/stdin\nrollout: 912 BadJournal line=1\n```\n\nThis line, from 1, has the wrong length or checksum, or can't come [there](FORMATS.md#the-journal). With\n`line=1`, perhaps no line is complete. The lines before it are valid: cut the file off after them\n(`head -n`), and `state` shows the run at that point. Hosts of later batches might be down too.\n\n**With `--changed-inputs` the journal can be intact.** Then the line names a host or group that the\ninventory no longer has, or it is a `play:` or `again:` line with a host that is now `\"down\": true`. Don't\ncut the file: compare the names. A resumed run can't be told of a host that went down by itself: without\nthe mark, the host counts as up.\n",
        ),
        "913" => Some(
            "913 OtherInputs: the journal is from a run of other files\n\n```\n$ rollout state examples/two-regions.json examples/killed.journal\nrollout: 913 OtherInputs\n```\n\nThe run started with another inventory, even if only a space differs. For `run --resume`, and for `plan`\nand `rehearse` with `--from`, the playbook must be the same too. Use the original files, or add\n[`--changed-inputs`](FORMATS.md#other-inputs). The number of plays must be the same even then.\n",
        ),
        "914" => Some(
            "914 NeedsResult: the resumed run needs a result that is lost\n\n```\n$ rollout run --resume examples/two-plays.journal examples/two-racks.json examples/two-plays.json\nrollout: 914 NeedsResult name=release\n```\n\nA later step reads what an earlier play registered under this name, but journals don't store results. What\nthe resumed play registers is lost too, if that play already updated a host. Nothing was started. Let a task\nof the later play find the value out, or run the rest with another playbook.\n",
        ),
        "915" => Some(
            "915 NoValue: with `--strict`: a step might read a name that has no value on a host\n\n```\n$ echo '[{\"hosts\": \"web\", \"tasks\": [{\"command\": \"install {{ releese }}\"}]}]' | rollout run --strict examples/two-racks.json /dev/stdin\nrollout: 915 NoValue step=1 host=web1 name=releese\n```\n\nThe host has no such variable, and no earlier step that certainly runs registers that name; or the step\nreads a field of a variable. If there are several plays, `play=` is the play. Nothing was started.\n\nDefine the variable for all hosts of the play, register the name in an earlier task, or test\n`NAME is defined` in `when`. The test doesn't help if only a handler registers the name: let a task do it.\nWithout `--strict` the step fails on that host. `--strict` doesn't notice that a skipped step's result has\nno `rc`.\n",
        ),
        "916" => Some(
            "916 ChildrenIgnored: `run` was started with SIGCHLD ignored\n\n```\n$ env --ignore-signal=CHLD rollout run examples/two-racks.json examples/roll-anywhere.json\nrollout: 916 ChildrenIgnored\nSIGCHLD is ignored here, so no program's end could be had. Start it with: env --default-signal=CHLD rollout run ..\n```\n\nThe operating system would discard exit statuses, so every host would fail. What started `rollout` passed\nthis on, such as a supervisor or a script with `trap '' CHLD`. Nothing was read or started.\n",
        ),
        "917" => Some(
            "917 Stopped: the stop file of the run existed before a batch\n\n```\n$ touch /tmp/stop\n$ rollout run --quiet --stop-file /tmp/stop examples/two-racks.json examples/roll-anywhere.json 2>&1 | tail -n 2\nend fault\nrollout: 917 Stopped\n$ rm /tmp/stop\n```\n\nSomeone created the stop file. No host is partly updated. Remove the file, then\n[resume](DURING_AND_AFTER.md#resuming) with the journal, for which `state` prints `broken-off`, or update\nthe hosts that are `waiting` with a new run.\n",
        ),
        "918" => Some(
            "918 Locked: another run has locked the inventory or the journal\n\n```\n$ flock examples/two-racks.json rollout run examples/two-racks.json examples/roll-anywhere.json\nrollout: 918 Locked\n```\n\nTwo runs at once might together take down more hosts than a limit allows. So each run\n[locks](FORMATS.md#the-lock) its inventory file, and its journal, until it ends. Wait for the other run. On\na terminal, a second line names the file and the process; otherwise use `fuser INV`. Nothing was read or\nstarted. If each workspace of a build server has its own copy of the inventory, name one file for all with\n`--lock-file FILE`. `--no-lock` locks nothing.\n",
        ),
        "919" => Some(
            "919 OutputIsInput: the file to be written is also an input\n\n```\n$ rollout plan --picture examples/two-racks.json examples/two-racks.json examples/restart-web.json\nrollout: 919 OutputIsInput name=examples/two-racks.json\n```\n\n`--picture` would overwrite a file that the command reads, perhaps by another name or a link. Name another\nfile. Nothing was read or written.\n",
        ),
        _ => None,
    }
}

/// The entries of kinds of notes.
#[tactic(auto, unfolding(crate::specs::Listed::is_of_kinds))]
fn entry_of_kinds<'p>(word: &str) -> Option<&'p str>
    ensures begins { IfSome result (λ entry. IsEntryOf word.now entry.now) }
    ensures listed { is_some result ≡ listed.is_of_kinds word.now }
{
    match word {
        "repeated-key" => Some(
            "repeated-key inventory=PATH, or playbook=PATH: the object in which PATH ends has this key more than once\n\n```\n$ echo '{\"web\": {\"hosts\": {\"web1\": null, \"web2\": null}}, \"web\": {\"hosts\": {\"web3\": null}}}' | rollout lint /dev/stdin | grep ^repeated-key\nrepeated-key inventory=web\n```\n\nIn JSON the last value of a repeated key counts: this group `web` has only web3. Put all hosts under one `web`, or rename a group. PATH\nlists the keys, and places in lists from 0, that lead to the key: `playbook=0/tasks/1/when`. At most 255 bytes of a key are printed, then\n`..`, and at most a hundred repeated keys of a file.\n",
        ),
        "near-key" => Some(
            "near-key group=G [host=H] name=NAME: the variable NAME of G, or of H in G, is named almost like `max_down` or `down`, or is a `max_down` of a host\n\n```\n$ echo '{\"rack1\": {\"vars\": {\"max-down\": 1}, \"hosts\": {\"web1\": null, \"web2\": null}}}' | rollout lint /dev/stdin | grep ^near-key\nnear-key group=rack1 name=max-down\n```\n\n`max-down` is an ordinary variable, and limits nothing. Write `max_down` in the `vars` of a group, and `down` at a host. Letter case, `_`,\n`-`, `.` and whitespace don't count. The rule matches:\n\n- names one edit away from `max_down`, and `max_unavailable`, `max_offline`, `max_hosts_down` and `max_down_hosts`, which other tools use\n- if the value is a boolean, `is_down` and names one edit away from `down`\n- `max_down` at a host: `ansible-inventory` writes it there without `--export`\n",
        ),
        "group-down" => Some(
            "group-down group=G: `down` is a variable of G\n\n```\n$ echo '{\"rack1\": {\"vars\": {\"down\": true}, \"hosts\": {\"web1\": null, \"web2\": null}}}' | rollout lint /dev/stdin | grep ^group-down\ngroup-down group=rack1\n```\n\n`down` marks a host only among the host's own variables. In the `vars` of a group it is an ordinary variable: the hosts count as up, and\nare updated. Write `\"down\": true` at each host that is down. If a step reads the variable, rename it.\n",
        ),
        "zero-limit" => Some(
            "zero-limit group=G members=N: the limit allows none of G's N hosts to be down\n\n```\n$ echo '{\"db\": {\"vars\": {\"max_down\": \"30%\"}, \"hosts\": {\"db1\": null, \"db2\": null, \"db3\": null}}}' | rollout lint /dev/stdin | grep ^zero-limit\nzero-limit group=db members=3\n```\n\n30 % of three hosts are 0.9, which rounds down to 0. No batch can contain a host of the group: a play that names one is blocked, or holds\nit. Write a `max_down` of 1 or more. If these hosts aren't to be updated, leave them out of the play, or pass `--allow zero-limit`.\n",
        ),
        "empty-limit" => Some(
            "empty-limit group=G: G has a limit and no hosts\n\n```\n$ echo '{\"rack1\": {\"hosts\": {\"web1\": null}}, \"rack-1\": {\"vars\": {\"max_down\": 1}}}' | rollout lint /dev/stdin | grep ^empty-limit\nempty-limit group=rack-1\n```\n\nThe limit protects no host. Often a group is spelled in two ways, and its hosts are in the other one, which has no limit. Move the hosts or\nthe limit, or remove the limit.\n",
        ),
        "loose-limit" => Some(
            "loose-limit group=G limit=L members=N: the limit L is above the number N of G's hosts\n\n```\n$ echo '{\"web\": {\"vars\": {\"max_down\": 20}, \"hosts\": {\"web1\": null, \"web2\": null, \"web3\": null}}}' | rollout lint /dev/stdin | grep ^loose-limit\nloose-limit group=web limit=20 members=3\n```\n\nAll three hosts may be down at once. Often a percentage is meant, which is a string: `\"max_down\": \"20%\"`. A limit equal to the number of\nhosts is accepted as intended. If hosts are still to be added, pass `--allow loose-limit`.\n",
        ),
        "unfilled-placeholder" => Some(
            "unfilled-placeholder group=G [host=H] name=NAME, or at=PATH key=KEY word=TEXT: the value of the variable NAME, or the string TEXT in the condition KEY, contains `{{`, `{%` or `{#`\n\n```\n$ echo '{\"web\": {\"vars\": {\"url\": \"http://{{ inventory_hostname }}/\"}, \"hosts\": {\"web1\": null}}}' | rollout lint /dev/stdin | grep ^unfilled\nunfilled-placeholder group=web name=url\n```\n\nOnly arguments of a command are filled in. Values of variables are not, unlike in Ansible: a program that gets `{{ url }}` receives the\nbraces. Write the placeholder in the command: `check http://{{ inventory_hostname }}/`. In a condition, a name has neither quotes nor\nbraces: `inventory_hostname != busy`. KEY is `when`, `changed_when` or `failed_when`, and TEXT its first such string. If a program expects\nbraces, pass `--allow unfilled-placeholder`.\n",
        ),
        "no-hosts" => Some(
            "no-hosts play=P: no host waits for the play\n\n```\n$ echo '[{\"hosts\": \"web5\", \"tasks\": [{\"command\": \"deploy {{ inventory_hostname }}\"}]}]' | rollout lint examples/two-racks.json /dev/stdin | grep ^no-hosts\nno-hosts play=1\n```\n\nThe play does nothing: all its hosts are down, or its groups have no hosts. Name other hosts. If a host is up again, remove `\"down\": true`,\nor pass `--up` to `run`.\n",
        ),
        "unlimited-hosts" => Some(
            "unlimited-hosts play=P hosts=N of=M host=H: N of the M waiting hosts are in no limited group, H the first by name, and others are\n\n```\n$ echo '{\"rack1\": {\"vars\": {\"max_down\": 1}, \"hosts\": {\"web1\": null, \"web2\": null}}, \"new\": {\"hosts\": {\"web3\": null, \"web4\": null}}}' >/tmp/fleet.json\n$ echo '[{\"hosts\": \"all\", \"tasks\": [{\"command\": \"deploy {{ inventory_hostname }}\"}]}]' | rollout lint /tmp/fleet.json /dev/stdin | grep ^unlimited-hosts\nunlimited-hosts play=1 hosts=2 of=4 host=web3\n```\n\nNo limit protects web3 and web4: one batch can take both. Add them to a limited group, or give their group a `max_down`. If no host of the\nplay has a limit, nothing is printed. If these hosts need none, pass `--allow unlimited-hosts`.\n",
        ),
        "local-command" => Some(
            "local-command play=P hosts=N, or at=PATH word=W, or at=PATH hosts=N: the play, or a step, does the same for each of several hosts, on the local machine or on one other\n\n```\n$ echo '[{\"hosts\": \"rack1\", \"tasks\": [{\"command\": \"ssh -- {{ inventory_hostname }} apt-get upgrade -y\"}, {\"command\": \"sudo systemctl restart web\"}]}]' | \\\n  rollout lint examples/two-racks.json /dev/stdin | grep ^local-command\nlocal-command at=0/tasks/1 word=systemctl\n$ echo '[{\"hosts\": \"rack1\", \"tasks\": [{\"command\": \"restart-web\"}]}]' | rollout lint examples/two-racks.json /dev/stdin | grep ^local-command\nlocal-command play=1 hosts=3\n```\n\nCommands run on the local machine, once for each host: the first play restarts the local `web` three times. Write\n`ssh -- {{ inventory_hostname }}` before the command. If the command belongs here, pass `--allow local-command`.\n\n- A step is *for its host* if a placeholder of its command can differ between the waiting hosts. Such a step isn't printed, nor is one\n  that at most one host can run.\n- Other steps are printed if they call `ssh`, or run `systemctl`, `service`, `apt`, `apt-get`, `yum`, `dnf`, `docker`, `reboot` or\n  `shutdown`.\n- If a step of the play calls `ssh`, so are the rest, unless they run `curl`, `wget`, `kubectl`, `helm`, `consul`, `nomad`, `vault`,\n  `aws`, `gcloud`, `az`, `psql`, `mysql`, `redis-cli`, `sleep`, `true`, `false`, `test`, `echo`, `printf` or `date`.\n- `sudo`, `timeout`, `env` and `nice` before a program are skipped.\n- A play is printed if no step of it is printed, calls `ssh`, is for its host, or has a `when` that asks about the host.\n",
        ),
        "undefined-name" => Some(
            "undefined-name at=PATH name=NAME, and near=OTHER, or hosts=N of=M host=H: the step might read the undefined name NAME: on all waiting hosts, or on N of M, H the first by name\n\n```\n$ echo '{\"web\": {\"hosts\": {\"web1\": {\"port\": 8080}, \"web2\": null}}}' >/tmp/fleet.json\n$ echo '[{\"hosts\": \"web\", \"tasks\": [{\"command\": \"check-web {{ inventory_hostname }} {{ port }}\", \"register\": \"health\"},' \\\n  '{\"command\": \"restart-web {{ inventory_hostname }}\", \"when\": \"helth.rc != 0\"}]}]' | rollout lint /tmp/fleet.json /dev/stdin | grep ^undefined-name\nundefined-name at=0/tasks/0 name=port hosts=1 of=2 host=web2\nundefined-name at=0/tasks/1 name=helth near=health\n```\n\nA step that reads an undefined name fails, and its host is down. Fix the spelling, define the variable, or register the result in an\nearlier step. OTHER is the name that was probably meant. `run --strict` refuses to start instead. [Details](NOTES.md#how-lint-decides).\n\n- A string needs quotes: `env == 'prod'`. Null, lists, objects and fractions are no values.\n- `x is defined and x == 'a'` reads x only if it is defined.\n- A result can be missing if only a handler, or a play for other hosts, registers it.\n- A result without a field, `{{ r }}`, has no text.\n",
        ),
        "unknown-group" => Some(
            "unknown-group at=PATH key=KEY group=G, or at=PATH key=KEY host=TEXT: the condition KEY tests for a group or host that the inventory doesn't have\n\n```\n$ echo '[{\"hosts\": \"rack1\", \"tasks\": [{\"command\": \"ssh -- {{ inventory_hostname }} uptime\", \"when\": \"\\\"rack-1\\\" not in group_names\"}]}]' | \\\n  rollout lint examples/two-racks.json /dev/stdin | grep ^unknown-group\nunknown-group at=0/tasks/0 key=when group=rack-1\n```\n\nThe inventory has no group `rack-1`, so the test has the same answer on each host, and the step runs on all of them. Fix the spelling:\n`rack1`. Case counts, and a group's name is not a host's. A test of `inventory_hostname` for an unknown host is printed with `host=`. Of each\ncondition the first such group and the first such host are printed. If another inventory has them, pass `--allow unknown-group`.\n",
        ),
        "constant-test" => Some(
            "constant-test at=PATH key=KEY name=R: the condition KEY tests a field of the result R, with the same outcome each time\n\n```\n$ echo '[{\"hosts\": \"rack1\", \"tasks\": [{\"command\": \"ssh -- {{ inventory_hostname }} cat /srv/schema\", \"register\": \"schema\"},' \\\n  '{\"command\": \"ssh -- {{ inventory_hostname }} migrate\", \"when\": \"schema.stdout == 41\"},' \\\n  '{\"command\": \"ssh -- {{ inventory_hostname }} restore\", \"when\": \"schema.rc != 0\"}]}]' | rollout lint examples/two-racks.json /dev/stdin | grep ^constant-test\nconstant-test at=0/tasks/1 key=when name=schema\nconstant-test at=0/tasks/2 key=when name=schema\n```\n\nNo host migrates: output is a string, which never equals an integer. Write `schema.stdout == '41'`. `rc` is an integer; `changed`, `failed`\nand `skipped` are booleans. No host restores either: if the first step fails, its host runs no later step. Add `\"ignore_errors\": true` to\nthat step, or a `failed_when` such as `schema.rc == 255`. Tests of failure are `R is failed`, `R.rc != 0` and `R.rc == 2`, in a\n`when`, if an earlier task of the play registers R.\n",
        ),
        "idle-step" => Some(
            "idle-step at=PATH: the `when` of the step holds on no waiting host\n\n```\n$ echo '{\"web\": {\"vars\": {\"env\": \"production\"}, \"hosts\": {\"web1\": null, \"web2\": null}}}' >/tmp/fleet.json\n$ echo '[{\"hosts\": \"web\", \"tasks\": [{\"command\": \"migrate {{ inventory_hostname }}\", \"when\": \"env == \\\"prodution\\\"\"}]}]' | \\\n  rollout lint /tmp/fleet.json /dev/stdin | grep ^idle-step\nidle-step at=0/tasks/0\n```\n\nThe step never runs: `env` is `production` on each host. Compare the `when` with the values in the inventory: 15 is an integer and `'15'` a\nstring, which are never equal. Only variables, groups and names decide, not results. A `when` that tests a boolean, or whether a name is\ndefined, is a switch, and isn't printed: `reboot`, `reboot == true`. If the step waits for another value, pass `--allow idle-step`.\n",
        ),
        "idle-handler" => Some(
            "idle-handler at=PATH: no task of its play that might change something notifies the handler\n\n```\n$ echo '[{\"hosts\": \"rack1\", \"tasks\": [{\"command\": \"deploy {{ inventory_hostname }}\"}], \"handlers\": [{\"name\": \"restart web\", \"command\": \"restart-web {{ inventory_hostname }}\"}]}]' | \\\n  rollout lint examples/two-racks.json /dev/stdin | grep ^idle-handler\nidle-handler at=0/handlers/0\n```\n\nThe handler never runs: only tasks of its own play notify it, by its exact name. Write `\"notify\": \"restart web\"` in a task, or remove the\nhandler. A task with `\"changed_when\": false` never changes anything, so it notifies no handler.\n",
        ),
        "changed-guard" => Some(
            "changed-guard at=PATH name=R: the `when` of the step tests `R is changed`\n\n```\n$ echo '[{\"hosts\": \"rack1\", \"tasks\": [{\"command\": \"deploy {{ inventory_hostname }}\", \"register\": \"deploy\"},' \\\n  '{\"command\": \"restart-web {{ inventory_hostname }}\", \"when\": \"deploy is changed\"}]}]' | rollout lint examples/two-racks.json /dev/stdin | grep ^changed-guard\nchanged-guard at=0/tasks/1 name=deploy\n```\n\nIf the restart fails, the next run deploys nothing new: `deploy` is not changed, and the restart is skipped. The host counts as updated, and\nruns the old release. Write the restart as a handler: a run that is resumed with `--up`\n[runs it on a repaired host](DURING_AND_AFTER.md#what-the-first-run-changed-is-no-change-to-the-second). Or register which release runs, and\ntest that: `running.stdout != '2.0'`. Negated tests aren't printed: `deploy is not changed`, `not deploy is changed`. If skipping\nthe step is harmless, pass `--allow changed-guard`.\n",
        ),
        "shell-word" => Some(
            "shell-word at=PATH word=W: the argument W means something only to a shell, or should be several arguments\n\n```\n$ echo '[{\"hosts\": \"rack1\", \"tasks\": [{\"command\": \"ps -C {{ inventory_hostname }} | grep web\"}]}]' | rollout lint examples/two-racks.json /dev/stdin | grep ^shell-word\nshell-word at=0/tasks/0 word=|\n```\n\nNo shell reads a command: `ps` gets the arguments `|`, `grep` and `web`. Write two steps, or\n`{\"argv\": [\"sh\", \"-c\", \"ps -C \\\"$1\\\" | grep web\", \"sh\", \"{{ inventory_hostname }}\"]}`. The rule matches:\n\n- the arguments `|`, `||`, `&`, `&&`, `;`, `>`, `>>`, `<` and `2>&1`\n- arguments without whitespace that contain `$NAME`, `${NAME` or `$(`, or start with `~/`\n- arguments with whitespace that contain `$` and three capital letters, but not after `-c`, `-lc`, `-ec` or `-xc`\n- a program whose name contains whitespace or `=`: each string of `argv` is one argument, and `env` sets a variable,\n  `env KUBECONFIG=file kubectl get nodes`\n- if the step calls `ssh`, only a script after `-c` and the like that has several words and no quotes around it: `ssh` joins its\n  arguments, and a remote shell splits them. Quote the script for that shell: `\"'systemctl restart web'\"`\n",
        ),
        "dash-name" => Some(
            "dash-name at=PATH host=H: the program takes the name of H, the first such host, for an option\n\n```\n$ echo '{\"web\": {\"hosts\": {\"-web1\": null}}}' >/tmp/fleet.json\n$ echo '[{\"hosts\": \"web\", \"tasks\": [{\"command\": \"ssh {{ inventory_hostname }} uptime\"}]}]' | rollout lint /tmp/fleet.json /dev/stdin | grep ^dash-name\ndash-name at=0/tasks/0 host=-web1\n```\n\n`ssh` reads `-web1` as options. Write `--` before the argument if the program knows it, `ssh -- {{ inventory_hostname }} uptime`, or rename\nthe host. If the program has no options, pass `--allow dash-name`.\n",
        ),
        "down-hosts" => Some(
            "down-hosts play=P hosts=N host=H: info: N hosts of the play are down at the start, H the first by name, and others wait\n\n```\n$ rollout lint examples/two-racks.json examples/restart-web.json | grep ^down-hosts\ndown-hosts play=1 hosts=1 host=web5\n```\n\nThese hosts are skipped. If they are up again, remove `\"down\": true`, or pass `--up` to `run`.\n",
        ),
        "one-failure" => Some(
            "one-failure play=P percent=N size=S: info: one failure in the smallest batch of several hosts, of size S, exceeds the `max_fail_percentage` N\n\n```\n$ echo '[{\"hosts\": \"rack1\", \"max_fail_percentage\": 25, \"tasks\": [{\"command\": \"deploy {{ inventory_hostname }}\"}]}]' >/tmp/play.json\n$ echo '{\"rack1\": {\"hosts\": {\"web1\": null, \"web2\": null, \"web3\": null}}}' | rollout lint /dev/stdin /tmp/play.json | grep ^one-failure\none-failure play=1 percent=25 size=3\n```\n\nA third of the batch is more than 25 %, so one failed host ends the run. To tolerate one failure, write at least 34, or enlarge the batches.\nTo tolerate none, write 0: then nothing is printed.\n",
        ),
        _ => None,
    }
}
